// Plans by the list of their additions.
ghost use Rattle.std.specs.Prelude.{◌≡◌, ℕ, ◌<◌, true, false, List, ◌++◌, length, is_ok};
ghost use Rattle.std.specs.Result.{result_err};
ghost use Rattle.std.specs.Option.{option_map};
ghost use Rattle.plan.specs.Refusing.{shown};
ghost use Rattle.plan.specs.History.{rows, Added, additions, accepted, made, Means, Answered};

use super::{Addition, Entry, Plan, PlanFault};

impl Plan {
    // One addition, by the call that makes it.
    pub fn add(&mut self, addition: Addition) -> Result<(), PlanFault>
        ensures answer { option_map shown (result_err result) ≡ rows self.old addition }
        ensures refused { is_ok result ≡ false → self.new ≡ self.old }
        ensures added { is_ok result ≡ true → Added self.old addition self.new }
        ensures means { (xs : List Addition) → Means xs self.old → Means (xs ++ made addition result) self.new }
    {
        match addition {
            Addition::Senior(senior, junior) => self.senior(senior, junior),
            Addition::Grant(role, permission) => self.grant(role, permission),
            Addition::Policy(permissions, least) => self.policy(permissions, least),
            Addition::Constraint(roles, limit) => self.constraint(roles, limit),
        }
    }

    // The plan that the additions make of the empty one; each answer is written beside its addition.
    pub fn from_log(log: &mut [Entry]) -> Plan
        ensures additions { additions log.new ≡ additions log.old }
        ensures answers { (n : ℕ) → n < length log.new → Answered log.new n }
        ensures means { Means (accepted log.new) result }
    {
        let mut plan = Plan::new();
        for entry in log.iter_mut() {
            entry.answer = plan.add(entry.addition);
        }
        plan
    }
}
