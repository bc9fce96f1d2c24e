ghost use Rattle.carrying.specs.Carrying.{shown};

use super::CarryFault;
use register::RegisterFault;
use terms::refusals::Fault;

impl Fault for CarryFault {
    ghost shown = { shown };

    fn number(&self) -> u32 {
        match self {
            CarryFault::Turn(turn) => turn.fault.number(),
            CarryFault::Broken(_, _) => 15,
            CarryFault::Full(RegisterFault::NoSuchPair) => 11,
            CarryFault::Full(RegisterFault::SeatsFull(_)) => 16,
            CarryFault::Full(RegisterFault::PlacesFull) => 17,
        }
    }
}
