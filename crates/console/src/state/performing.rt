// The calls of the service.
ghost use Rattle.std.specs.Prelude.{◌≡◌, [], Ok, IfOk};
ghost use Rattle.console.specs.Performed.{Begun, Logged, Judged, Fielded, Performed};

use super::State;
use crate::answers::{Answer, Breach, Refusal, Reply};
use crate::calls::Call;
use commission::commission;
use judge::{JudgedPlan, Witness};
use plan::{Addition, Entry, Plan};
use script::fields::list_fields;
use std::alloc::{AllocError, Global};

// The places of the fields in a text.
fn fields(heap: Global, text: &[u8]) -> Result<Answer, AllocError>
    ensures { IfOk result (λ a. Fielded text.now a) }
{
    let told = list_fields(heap, text)?;
    Ok(told.map(Reply::Fields).map_err(Refusal::Text))
}

impl State {
    // An empty plan, and an empty place.
    pub(crate) fn new(heap: Global) -> State
        ensures { result.log.items ≡ [] }
    {
        State {
            heap,
            plan: Plan::new(),
            log: Vec::new(heap),
            place: JudgedPlan::new(),
        }
    }

    // Begins an empty plan; the place keeps the last accepted one.
    fn begin(&mut self) -> Reply
        ensures { Begun self.old (Ok result) self.new }
    {
        self.log.clear();
        self.plan = Plan::new();
        Reply::Accepted
    }

    // Adds to the plan, and notes the addition with its answer.
    fn add(&mut self, addition: Addition) -> Result<Answer, AllocError>
        ensures { IfOk result (λ a. Logged self.old addition a self.new) }
    {
        let mut plan = self.plan;
        let answer = plan.add(addition);
        self.log.push(Entry { addition, answer })?;
        self.plan = plan;
        Ok(answer.map(|()| Reply::Accepted).map_err(Refusal::Addition))
    }

    // Judges the plan that the additions of the log make; it is then the plan being written.
    fn judge(&mut self) -> Answer
        ensures { Judged self.old result self.new }
    {
        let mut witness = Witness::new();
        let judgement = commission(self.log.as_mut_slice(), &mut self.place, &mut witness);
        self.plan = judgement.plan;
        match judgement.answer {
            Ok(()) => Ok(Reply::Accepted),
            Err(fault) => Err(Refusal::Plan(Breach { fault, witness })),
        }
    }

    // Performs a call, and gives its answer.
    pub(crate) fn perform(&mut self, call: Call) -> Result<Answer, AllocError>
        ensures { IfOk result (λ a. Performed self.old call a self.new) }
    {
        match call {
            Call::New => Ok(Ok(self.begin())),
            Call::Add(addition) => self.add(addition),
            Call::AuthorisedRoles(roles) => Ok(Ok(Reply::members(self.plan.authorised(roles)))),
            Call::HeldPermissions(roles) => Ok(Ok(Reply::members(self.plan.held(roles)))),
            Call::Judge => Ok(self.judge()),
            Call::Fields(text) => fields(self.heap, &text),
        }
    }
}
