ghost use Rattle.std.specs.Prelude.{◌≡◌, true, false, ◌↔◌, is_ok, length, take, MatchOption};
ghost use Rattle.terms.specs.Lists.{listed};
ghost use Rattle.plan.specs.Enforcing.{Breachable, Enforced};
ghost use Rattle.judge.specs.Empties.{EmptyFrom};
ghost use Rattle.judge.specs.Judging.{Witnessed};

use super::memo::{Known, Memo};
use super::sharing::{Search, Users};
use super::{JudgeFault, JudgedPlan, Witness};
use holding::Survey;
use plan::Plan;
use std::array;
use terms::sets::RoleSet;

// The roles of each user; the sets after the last are empty.
fn roles_of(users: &Users) -> [RoleSet; 7]
    ensures users { take (length (listed users.now)) result ≡ listed users.now }
    ensures rest { EmptyFrom result (length (listed users.now)) }
{
    array::from_fn(|i| users.as_slice().get(i).copied().unwrap_or(0))
}

impl Search<'_> {
    // The witness of the lowest policy that is not enforced, if there is one.
    fn witness(&mut self) -> Option<Witness>
        ensures { MatchOption result (Enforced self.old.survey.now.plan.now) (λ w. Witnessed self.old.survey.now.plan.now w) }
    {
        let plan = self.survey().plan();
        // a loop, and not `find_map`: each turn changes the memo through `self`, of which the closure's caller keeps no fact
        for (i, policy) in plan.policies().iter().enumerate() {
            if let Some(found) = self.fewest_users(policy.permissions, policy.least) {
                let roles = roles_of(&found);
                return Some(Witness {
                    policy: i,
                    users: found.len(),
                    roles,
                });
            }
        }
        None
    }
}

// Surveys the plan, and searches it with memo tables on the stack: the witness of its lowest policy that is not enforced, if
// there is one.
fn searched(plan: &Plan) -> Option<Witness>
    ensures { MatchOption result (Enforced plan.now) (λ w. Witnessed plan.now w) }
{
    let survey = Survey::of(plan);
    let mut sets = [0u64; 65536];
    let mut known = [Known::NONE; 65536];
    let memo = Memo::over(&mut sets, &mut known);
    Search::over(&survey, memo).witness()
}

// Judges a plan. An accepted plan fills the place, and leaves the witness record as it is; of a refused plan, one with a policy that
// is not enforced, the record tells who could break it, and the place is left as it is. Place and record are the caller's, who
// goes on with both.
pub fn judge(plan: &Plan, place: &mut JudgedPlan, witness: &mut Witness) -> Result<(), JudgeFault>
    ensures exactly { is_ok result ≡ false ↔ Breachable plan.now }
    ensures accepted { is_ok result ≡ true → (place.new.plan ≡ plan.now) × (witness.new ≡ witness.old) }
    ensures refused { is_ok result ≡ false → (place.new ≡ place.old) × Witnessed plan.now witness.new }
{
    match searched(plan) {
        Some(found) => {
            *witness = found;
            Err(JudgeFault::Unenforced)
        }
        None => {
            *place = JudgedPlan { plan: *plan };
            Ok(())
        }
    }
}
