// A plan from the list of its additions, made from nothing and judged: the call that programs make.
#![tactic(auto)]

ghost use Rattle.std.specs.Prelude.{◌≡◌};
ghost use Rattle.plan.specs.History.{additions};
ghost use Rattle.commission.specs.Promise.{Promise};

use judge::judging::judge;
use judge::{JudgeFault, JudgedPlan, Witness};
use plan::{Entry, Plan};

// The plan that was made, and what judging it answered.
#[derive(Clone, Copy)]
pub struct Judgement {
    pub plan: Plan,
    pub answer: Result<(), JudgeFault>,
}

// Makes the plan from empty by the additions of the log, writes each answer beside its addition, and judges the plan into the place. The
// place and the witness record are the caller's, who goes on with both.
pub fn commission(log: &mut [Entry], place: &mut JudgedPlan, witness: &mut Witness) -> Judgement
    ensures additions { additions log.new ≡ additions log.old }
    ensures promise { Promise log.new result.plan result.answer place.old place.new witness.old witness.new }
{
    let plan = Plan::from_log(log);
    let answer = judge(&plan, place, witness);
    Judgement { plan, answer }
}
