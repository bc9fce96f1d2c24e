// One user: with which roles, if any, he can hold a set of permissions without breaking a constraint.
#![tactic(auto)]

ghost use Rattle.std.specs.Prelude.{◌≡◌};
ghost use Rattle.plan.specs.Authority.{authorised};
ghost use Rattle.holding.specs.Tables.{Gains, Outside};

use plan::Plan;
use terms::sets::{PermissionSet, RoleSet};

mod bounding;
mod searching;
mod surveying;

// A plan with what the search reads of it again and again: what each role holds by itself, and for each constraint what is
// granted to roles that it does not name. The tables are derived from a plan that is borrowed, by its numbers of roles and of
// constraints, and are read beside it; they are no parts of one record.
#[derive(Drop)]
pub struct Survey<'a> {
    plan: &'a Plan,
    gains: [PermissionSet; 64],
    outside: [PermissionSet; 64],
    ghost gained: { Gains plan.now gains },
    ghost apart: { Outside plan.now outside },
}

// The user who is sought: he is authorised for what the roles `word` authorise for, which are `all`, and holds `wanted`.
#[derive(Clone, Copy)]
struct Sought<'a> {
    survey: &'a Survey<'a>,
    word: RoleSet,
    all: RoleSet,
    wanted: PermissionSet,
    ghost whole: { all ≡ authorised survey.now.plan.now word },
}

// Roles that some constraints name, and how many more of them a user may still take.
#[derive(Clone, Copy)]
struct Named {
    roles: RoleSet,
    spare: u32,
}
