ghost use Rattle.changes.specs.Drafts.{shown};
ghost use Rattle.changes.specs.Turns.{shown_turn};

use super::{ChangeFault, DraftFault};
use terms::refusals::Fault;

impl Fault for DraftFault {
    ghost shown = { shown };

    fn number(&self) -> u32 {
        match self {
            DraftFault::Full => 21,
        }
    }
}

impl Fault for ChangeFault {
    ghost shown = { shown_turn };

    fn number(&self) -> u32 {
        match self {
            ChangeFault::NoUser => 11,
            ChangeFault::NoRole => 12,
            ChangeFault::Held => 13,
            ChangeFault::NotHeld => 14,
        }
    }
}
