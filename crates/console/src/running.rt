// A whole script: its lines one by one, and the totals.
ghost use Rattle.std.specs.Prelude.{◌≡◌, ◌+◌, ◌^◌, ◌<◌, ◌≤◌, IfOk, length};
ghost use Rattle.console.specs.Printed.{Answered, Called, Lined, Fresh, Transcript};

use super::answers::Shown;
use super::calls::Call;
use super::reading::read_call;
use super::state::State;
use super::tally::{Outcome, Totals};
use script::lines::Lines;
use std::alloc::Global;
use std::io;
use std::io::Write;

// The most bytes that a script may have.
pub(crate) const MOST_BYTES: usize = 1048576;

// What the calls so far have made, what became of them, and what they have printed.
#[derive(Drop)]
struct Session {
    heap: Global,
    state: State,
    totals: Totals,
    out: Vec<u8>,
}

impl Session {
    fn new(heap: Global) -> Session
        ensures { Fresh result }
    {
        Session {
            heap,
            state: State::new(heap),
            totals: Totals::new(),
            out: Vec::new(heap),
        }
    }

    // Performs a call, and prints its line with the answer. Gives what became of the call.
    fn answer_call(&mut self, line: &[u8], call: Call) -> io::Result<Outcome>
        ensures totals { self.new.totals ≡ self.old.totals }
        ensures answered { IfOk result (λ o. Answered self.old.state call self.old.out.items line.now o self.new.state self.new.out.items) }
    {
        let answer = self.state.perform(call)?;
        self.out.extend_from_slice(line)?;
        let shown = Shown(&answer);
        writeln!(self.out, " -> {shown}")?;
        Ok(Outcome::of(&answer))
    }

    // Performs the call of a line, and prints the line with its answer. Gives what became of the call.
    fn perform_call(&mut self, number: usize, line: &[u8]) -> io::Result<Outcome>
        ensures totals { self.new.totals ≡ self.old.totals }
        ensures called { IfOk result (λ o. Called self.old.state self.old.out.items number line.now o self.new.state self.new.out.items) }
    {
        let Some(call) = read_call(self.heap, line)? else {
            writeln!(self.out, "line {number}: not understood")?;
            return Ok(Outcome::NotUnderstood);
        };
        self.answer_call(line, call)
    }

    // Prints a comment or an empty line as it is, and performs any other line.
    fn perform_line(&mut self, number: usize, line: &[u8]) -> io::Result<()>
        requires { self.old.totals.calls + 1 < 2 ^ 32 }
        ensures calls { self.new.totals.calls ≤ self.old.totals.calls + 1 }
        ensures line { IfOk result (λ u. Lined self.old number line.now self.new) }
    {
        if let [] | [b'#', ..] = line {
            self.out.extend_from_slice(line)?;
            self.out.push(b'\n')?;
            return Ok(());
        }
        let outcome = self.perform_call(number, line)?;
        self.totals.count(outcome);
        Ok(())
    }
}

// What the script prints.
pub(super) fn run(heap: Global, script: &[u8]) -> io::Result<Vec<u8>>
    requires { length script.now ≤ 1048576 }
    ensures { IfOk result (λ printed. Transcript script.now printed.items) }
{
    let mut session = Session::new(heap);
    for (i, line) in Lines::new(script).enumerate() {
        session.perform_line(i + 1, line)?;
    }
    let Session {
        totals,
        mut out,
        ..
    } = session;
    writeln!(out, "{totals}")?;
    Ok(out)
}
