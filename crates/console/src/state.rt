// The console's state.
ghost use Rattle.plan.specs.History.{accepted, Means};

use judge::JudgedPlan;
use plan::{Entry, Plan};
use std::alloc::Global;

mod performing;

// The plan now being written, the additions that it was given since it was empty, with their answers, and the place of the last
// accepted plan. The plan is exactly what was accepted of those additions.
#[derive(Drop)]
pub(crate) struct State {
    heap: Global,
    plan: Plan,
    log: Vec<Entry>,
    place: JudgedPlan,
    ghost written: { ∥ Means (accepted log.items) plan ∥₁ },
}
