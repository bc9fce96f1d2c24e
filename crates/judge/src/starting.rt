ghost use Rattle.std.specs.Prelude.{◌≡◌, []};
ghost use Rattle.plan.specs.History.{Means};
ghost use Rattle.plan.specs.Enforcing.{Enforced};
ghost use Rattle.judge.specs.Empties.{EmptyFrom};

use super::{JudgedPlan, Witness};
use plan::Plan;

impl JudgedPlan {
    // The empty plan, which has no policy to break.
    pub fn new() -> JudgedPlan
        ensures { Means [] result.plan }
    {
        JudgedPlan { plan: Plan::new() }
    }

    // The plan, which enforces every policy that it has.
    pub fn plan(&self) -> &Plan
        ensures value { result.now ≡ self.now.plan }
        ensures enforced { Enforced result.now }
    {
        &self.plan
    }
}

impl Witness {
    // A record that says nothing yet.
    pub fn new() -> Witness
        ensures { (EmptyFrom result.roles 0) × ((result.users ≡ 0) × (result.policy ≡ 0)) }
    {
        Witness {
            policy: 0,
            users: 0,
            roles: [0; 7],
        }
    }
}
