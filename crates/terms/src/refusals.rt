// Refusals by number: what the faults of every layer have in common.
ghost use Rattle.std.specs.Prelude.{◌≡◌, MatchResult};
ghost use Rattle.terms.specs.Refusals.{Refusal};

// Why a call is refused.
pub trait Fault {
    // The refusal that the fault is: its number, and the values that it carries.
    ghost shown: { Self → Refusal };

    // The refusal's number.
    fn number(&self) -> u32
        ensures { result ≡ (shown self.now).number };
}

// The number of an answer: 0 where the call was accepted, else that of its refusal.
pub fn number_of<T, F: Fault>(answer: &Result<T, F>) -> u32
    ensures { MatchResult answer.now (λ _. result ≡ 0) (λ f. result ≡ (F.Fault.shown f).number) }
{
    match answer {
        Ok(_) => 0,
        Err(fault) => fault.number(),
    }
}
