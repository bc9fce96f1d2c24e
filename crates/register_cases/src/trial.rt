// One run: the same calls to a register and to the model.
use super::generator::Generator;
use super::model::Model;
use register::seats::SeatLayer;
use register::{Register, RegisterFault};
use std::array;
use tally::Tally;
use terms::refusals::number_of;

// The table that was lent holds the model's rows.
pub(crate) fn note_rows(tally: &mut Tally, model: &Model, table: &[u64]) {
    for (user, word) in (0u32..4096).zip(table.iter()) {
        tally.note(*word == model.row(user));
    }
}

// The words past the first 4,096 are as they were.
pub(crate) fn note_spare(tally: &mut Tally, before: &[u64], table: &[u64]) {
    tally.note(before.len() == table.len().saturating_sub(4096));
    for (was, word) in before.iter().zip(table.iter().skip(4096)) {
        tally.note(*was == *word);
    }
}

// The calls of each run.
const CALLS: u32 = 1000;

// The seat numbers of a layer: few for some roles, many for others, some above 4,096.
fn seats(random: &mut Generator) -> [u32; 64] {
    array::from_fn(|_| match random.below(4) {
        0 => random.below(3),
        1 => random.below(40),
        2 => 4096,
        _ => 5000,
    })
}

// A role, mostly one of few, so that seats fill up.
fn some_role(random: &mut Generator) -> u32 {
    match random.below(20) {
        0 => 64,
        1 => u32::MAX,
        2 => 63,
        n if n < 14 => random.below(4),
        _ => random.below(64),
    }
}

// The number of an answer, 0 where the pair is held: the refusal table's, written here once more to hold the service's against.
fn expected(answer: &Result<(), RegisterFault>) -> u32 {
    match answer {
        Ok(()) => 0,
        Err(RegisterFault::NoSuchPair) => 51,
        Err(RegisterFault::SeatsFull(_)) => 52,
        Err(RegisterFault::PlacesFull) => 53,
    }
}

// A run: the model that a register is held against, and where its calls come from.
#[derive(Drop)]
pub(crate) struct Trial<'a> {
    pub(crate) model: &'a mut Model,
    pub(crate) random: &'a mut Generator,
}

impl Trial<'_> {
    // A user, mostly below the number of users.
    fn some_user(&mut self) -> u32 {
        let users = self.model.users().min(5000) as u32;
        match self.random.below(20) {
            0 => users,
            1 => u32::MAX,
            _ => self.random.below(users),
        }
    }

    // One call, and whether both answered alike.
    fn call<R: Register>(&mut self, register: &mut R) -> bool {
        let user = self.some_user();
        let role = some_role(self.random);
        match self.random.below(100) {
            0 => {
                register.clear();
                self.model.clear();
                true
            }
            n if n < 70 => {
                let answer = register.add(user, role);
                answer == self.model.add(user, role) && number_of(&answer) == expected(&answer)
            }
            _ => register.remove(user, role) == self.model.remove(user, role),
        }
    }

    // Whether the counts agree.
    fn counts<R: Register>(&self, register: &R) -> bool {
        register.users() as usize == self.model.users()
            && register.places() as usize == self.model.places()
            && register.pairs() as usize == self.model.pairs()
    }

    // Performs so many random calls, and compares each answer, every count and every row after it; roles and users past the
    // last are asked for too, so these are ranges of numbers.
    pub(crate) fn compare<R: Register>(&mut self, register: &mut R) -> Tally {
        let mut tally = Tally::new();
        for _ in 0..CALLS {
            tally.note(self.call(register));
            tally.note(self.counts(register));
            for role in 0u32..66 {
                tally.note(register.members(role) as usize == self.model.members(role));
                tally.note(register.seats(role) == self.model.seats(role));
            }
            for user in 0u32..4100 {
                tally.note(register.row(user) == self.model.row(user));
            }
        }
        tally
    }

    // The same with the register under one layer of seats, which empties it.
    pub(crate) fn under_one<R: Register>(&mut self, register: &mut R) -> Tally {
        let own = seats(self.random);
        self.model.clear();
        self.model.limit(&own);
        let mut layer = SeatLayer::new(register, own);
        let tally = self.compare(&mut layer);
        let _ = layer.into_below();
        tally
    }

    // The same under two layers, one moved into the other.
    pub(crate) fn under_two<R: Register>(&mut self, register: &mut R) -> Tally {
        let (lower, upper) = (seats(self.random), seats(self.random));
        self.model.clear();
        self.model.limit(&lower);
        self.model.limit(&upper);
        let mut layer = SeatLayer::new(SeatLayer::new(register, lower), upper);
        let tally = self.compare(&mut layer);
        let _ = layer.into_below().into_below();
        tally
    }
}
