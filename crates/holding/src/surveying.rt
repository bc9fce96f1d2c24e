ghost use Rattle.std.specs.Prelude.{◌≡◌, ℕ, ◌⊎◌};
ghost use Rattle.terms.specs.Sets.{In};
ghost use Rattle.plan.specs.Authority.{Granted};
ghost use Rattle.holding.specs.Tables.{Gains, Apart, Outside};

use super::Survey;
use plan::Plan;
use std::array;
use terms::sets::{Members, PermissionSet, RoleSet};

// What each role holds by itself.
fn gains(plan: &Plan) -> [PermissionSet; 64]
    ensures { Gains plan.now result }
{
    array::from_fn(|r| plan.held(1u64 << r))
}

// What is granted to roles that are not in the set.
pub(crate) fn elsewhere(plan: &Plan, roles: RoleSet) -> PermissionSet
    ensures { (a k : ℕ) → Granted plan.now a k → In a roles ⊎ In k result }
{
    let mut all = 0;
    for a in Members::of(!roles) {
        all |= plan.granted(a);
    }
    all
}

// What is granted to roles that one constraint does not name; nothing where the plan has none of that number.
fn apart(plan: &Plan, number: usize) -> PermissionSet
    ensures { Apart plan.now number result }
{
    match plan.constraint_at(number) {
        Some(c) => elsewhere(plan, c.roles),
        None => 0,
    }
}

// For each constraint, what is granted to roles that it does not name.
fn outside(plan: &Plan) -> [PermissionSet; 64]
    ensures { Outside plan.now result }
{
    array::from_fn(|i| apart(plan, i))
}

impl<'a> Survey<'a> {
    pub fn of(plan: &'a Plan) -> Survey<'a>
        ensures { result.plan.now ≡ plan.now }
    {
        Survey {
            plan,
            gains: gains(plan),
            outside: outside(plan),
        }
    }

    // The plan that was surveyed.
    pub fn plan(&self) -> &Plan
        ensures { result.now ≡ self.now.plan.now }
    {
        self.plan
    }
}
