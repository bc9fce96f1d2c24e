// How many calls there were, and what became of them.
ghost use Rattle.std.specs.Prelude.{◌≡◌, ◌+◌, ◌^◌, ◌<◌, Some};
ghost use Rattle.console.specs.Answering.{counted};
ghost use Rattle.console.specs.Tallying.{adds as shares, totals_text};

use super::answers::Answer;
use std::fmt;

// What became of a call.
#[derive(Clone, Copy, PartialEq, Eq, Debug)]
pub(crate) enum Outcome {
    Accepted,
    Refused,
    NotUnderstood,
}

impl Outcome {
    // What an answer counts as.
    pub(super) fn of(answer: &Answer) -> Outcome
        ensures { result ≡ counted answer.now }
    {
        match answer {
            Ok(_) => Outcome::Accepted,
            Err(_) => Outcome::Refused,
        }
    }
}

#[derive(Clone, Copy, PartialEq, Eq, Debug)]
pub(crate) struct Totals {
    calls: u32,
    accepted: u32,
    refused: u32,
    not_understood: u32,
    ghost adds: { calls ≡ accepted + refused + not_understood },
}

impl Totals {
    pub(super) fn new() -> Totals
        ensures { result.calls ≡ 0 }
    {
        Totals {
            calls: 0,
            accepted: 0,
            refused: 0,
            not_understood: 0,
        }
    }

    // One more call.
    pub(super) fn count(&mut self, outcome: Outcome)
        requires { self.old.calls + 1 < 2 ^ 32 }
        ensures calls { self.new.calls ≡ self.old.calls + 1 }
        ensures accepted { self.new.accepted ≡ self.old.accepted + (shares outcome).0 }
        ensures refused { self.new.refused ≡ self.old.refused + (shares outcome).1 }
    {
        self.calls += 1;
        match outcome {
            Outcome::Accepted => self.accepted += 1,
            Outcome::Refused => self.refused += 1,
            Outcome::NotUnderstood => self.not_understood += 1,
        }
    }
}

impl fmt::Display for Totals {
    ghost output = { λ t. Some (totals_text t.calls t.accepted t.refused t.not_understood) };

    fn fmt<W: fmt::Write>(&self, f: &mut fmt::Formatter<W>) -> fmt::Result {
        let calls = self.calls;
        let accepted = self.accepted;
        let refused = self.refused;
        let not_understood = self.not_understood;
        write!(
            f,
            "{calls} calls: {accepted} accepted, {refused} refused, {not_understood} not understood"
        )
    }
}
