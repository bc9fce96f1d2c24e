// Judging a plan: it is accepted exactly when its constraints enforce all its policies.
#![tactic(auto)]

ghost use Rattle.judge.specs.Invariant.{Unbreachable};

use plan::Plan;
use terms::sets::RoleSet;

mod faults;
pub mod judging;
mod memo;
mod sharing;
mod starting;

// A plan whose constraints enforce all its policies, for assignments to any number of users. It is neither `Clone` nor
// `Copy`: an engine that opens from it uses it up.
#[derive(Drop)]
pub struct JudgedPlan {
    plan: Plan,
    ghost enforced: { Unbreachable plan },
}

// Who could break which policy of a refused plan: the lowest policy that is not enforced, the fewest users that cover it, and
// their assigned roles; the sets after those are empty.
#[derive(Clone, Copy, PartialEq, Eq, Debug)]
pub struct Witness {
    pub policy: usize,
    pub users: usize,
    // seven sets with their number beside them: the record is lent, and its form is given by a rule of the project
    pub roles: [RoleSet; 7],
}

// Why judging refuses a plan.
#[derive(Clone, Copy, PartialEq, Eq, Debug)]
pub enum JudgeFault {
    // a policy is not enforced
    Unenforced,
}
