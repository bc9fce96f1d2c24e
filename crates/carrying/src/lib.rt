// A list of changes carried over a register as one: all of them are made, or none.
#![tactic(auto)]

ghost use Rattle.std.specs.Prelude.{◌≡◌};
ghost use Rattle.carrying.specs.declared.CarryFault.TheVariants.{Full, Turn};

mod faults;

use changes::TurnFault;
use register::RegisterFault;

// Why a list of changes is refused.
#[derive(Clone, Copy, PartialEq, Eq, Debug)]
pub enum CarryFault {
    // a change is refused in its turn
    Turn(TurnFault),
    // the constraint is broken in the end table, first by the user of this change
    Broken(usize, usize),
    // the end table does not fit the register
    Full(RegisterFault),
}

impl From<RegisterFault> for CarryFault {
    ghost from_gives = { λ f e. e ≡ Full f };

    fn from(fault: RegisterFault) -> CarryFault {
        CarryFault::Full(fault)
    }
}

impl From<TurnFault> for CarryFault {
    ghost from_gives = { λ f e. e ≡ Turn f };

    fn from(fault: TurnFault) -> CarryFault {
        CarryFault::Turn(fault)
    }
}
