// The plan of a store: which role is senior to which, which permissions each role is granted, which
// policies say how many people a set of permissions takes, and which constraints exclude roles from each other.
#![tactic(auto, using(terms::proofs::Lists::listed_within))]

ghost use Rattle.std.specs.Prelude.{◌≡◌, ℕ, ◌<◌, ◌≤◌, length};
ghost use Rattle.terms.specs.Lists.{listed};
ghost use Rattle.plan.specs.Limits.{AtLeastTwo, AtMostEight, Fitting, Narrow, Limited};
ghost use Rattle.plan.specs.Order.{Reflexive, Transitive, Antisymmetric};

use terms::sets::{PermissionSet, RoleSet};
use terms::short_list::ShortList;

mod adding;
mod asking;
mod faults;
mod making;
pub mod writing;

// "These permissions take at least `least` people."
#[derive(Clone, Copy, PartialEq, Eq, Debug)]
pub struct Policy {
    pub permissions: PermissionSet,
    pub least: u32,
}

// "Nobody may be authorised for `limit` of these roles."
#[derive(Clone, Copy, PartialEq, Eq, Debug)]
pub struct Constraint {
    pub roles: RoleSet,
    pub limit: u32,
}

// Why an addition to a plan is refused.
#[derive(Clone, Copy, PartialEq, Eq, Debug)]
pub enum PlanFault {
    // a role above 63
    NoRole,
    // a permission above 63
    NoPermission,
    // the junior is already senior to the senior
    Cycle,
    // a number of people, or a limit, that does not fit its set
    Limit,
    // a policy with more than 16 permissions
    Wide,
    // already 32 policies, or 64 constraints
    Full,
}

// Row r of `juniors` has the roles that role r is senior to, itself among them; row r of `grants` the permissions
// granted to it directly. `few` and `bounded` say what the lists' types say, for callers that index by such a number.
#[derive(Clone, Copy)]
pub struct Plan {
    juniors: [RoleSet; 64],
    grants: [PermissionSet; 64],
    policies: ShortList<Policy, 32>,
    constraints: ShortList<Constraint, 64>,
    ghost reflexive: { Reflexive juniors },
    ghost transitive: { Transitive juniors },
    ghost antisymmetric: { Antisymmetric juniors },
    ghost few: { length (listed policies) ≤ 32 },
    ghost bounded: { length (listed constraints) ≤ 64 },
    ghost several: { AtLeastTwo (listed policies) },
    ghost eight: { AtMostEight (listed policies) },
    ghost fitting: { Fitting (listed policies) },
    ghost narrow: { Narrow (listed policies) },
    ghost limited: { Limited (listed constraints) },
    ghost whole: { length grants ≡ 64 },
}

// One thing to be added to a plan, with the numbers as they were given.
#[derive(Clone, Copy, PartialEq, Eq, Debug)]
pub enum Addition {
    // the first role is made senior to the second
    Senior(u32, u32),
    // the role is granted the permission
    Grant(u32, u32),
    // the permissions take at least so many people
    Policy(PermissionSet, u32),
    // nobody may be authorised for so many of the roles
    Constraint(RoleSet, u32),
}

// An addition, and what it was answered.
#[derive(Clone, Copy, PartialEq, Eq, Debug)]
pub struct Entry {
    pub addition: Addition,
    pub answer: Result<(), PlanFault>,
}
