// Why a register refuses a pair.
ghost use Rattle.register.specs.Changes.{shown};

use terms::refusals::Fault;

#[derive(Clone, Copy, PartialEq, Eq, Debug)]
pub enum RegisterFault {
    // The user is not below the number of users, or the role is above 63.
    NoSuchPair,
    // The role has as many members as seats, or more.
    SeatsFull(u32),
    // The register has as many pairs as places.
    PlacesFull,
}

impl Fault for RegisterFault {
    ghost shown = { shown };

    fn number(&self) -> u32 {
        match self {
            RegisterFault::NoSuchPair => 51,
            RegisterFault::SeatsFull(_) => 52,
            RegisterFault::PlacesFull => 53,
        }
    }
}
