// A layer that narrows the seats of any register, and is a register itself; layers may lie over layers.
ghost use Rattle.std.specs.Prelude.{◌≡◌};
ghost use Rattle.register.specs.Changes.{cleared};
ghost use Rattle.register.specs.Layer.{own_seats, seated, seated_sound, turns_away};

use crate::{Register, RegisterFault};
use terms::sets::contains;

// Users, places and pairs are those of the register below.
#[derive(Drop)]
pub struct SeatLayer<R> {
    below: R,
    own: [u32; 64],
}

impl<R: Register> SeatLayer<R> {
    // Sets the layer over a register, which is emptied; a seat number above 4,096 counts as 4,096.
    pub fn new(mut below: R, own: [u32; 64]) -> SeatLayer<R>
        ensures below { R.Register.model result.below ≡ cleared (R.Register.model below) }
        ensures own { result.own ≡ own }
        ensures kept { R.Register.kept result.below ≡ R.Register.kept below }
    {
        below.clear();
        SeatLayer { below, own }
    }

    // Lifts the layer off again; the register below stays as it is.
    pub fn into_below(self) -> R
        ensures { result ≡ self.below }
    {
        let SeatLayer { below, own: _ } = self;
        below
    }

    // The layer's own seats for a role; a role above 63 has none.
    fn own_seats(&self, role: u32) -> u32
        ensures { result ≡ own_seats self.now.own role }
    {
        self.own
            .get(role as usize)
            .map_or(0, |seats| (*seats).min(4096))
    }

    // Whether the layer's own seats refuse the pair.
    fn turns_away(&self, user: u32, role: u32) -> bool
        ensures { result ≡ turns_away self.now.own (R.Register.model self.now.below) user role }
    {
        user < self.below.users()
            && role < 64
            && !contains(self.below.row(user), role)
            && self.own_seats(role) <= self.below.members(role)
    }
}

impl<R: Register> Register for SeatLayer<R> {
    ghost model = { λ s. seated s.own (R.Register.model s.below) };

    ghost kept = { λ s. R.Register.kept s.below };

    ghost sound = { λ s. seated_sound s.own (R.Register.model s.below) (R.Register.sound s.below) };

    fn users(&self) -> u32 {
        self.below.users()
    }

    fn places(&self) -> u32 {
        self.below.places()
    }

    fn seats(&self, role: u32) -> u32 {
        if role > 63 {
            return 0; // without asking the layers below
        }
        self.own_seats(role).min(self.below.seats(role))
    }

    fn pairs(&self) -> u32 {
        self.below.pairs()
    }

    fn members(&self, role: u32) -> u32 {
        self.below.members(role)
    }

    fn row(&self, user: u32) -> u64 {
        self.below.row(user)
    }

    fn add(&mut self, user: u32, role: u32) -> Result<(), RegisterFault> {
        if self.turns_away(user, role) {
            return Err(RegisterFault::SeatsFull(role));
        }
        self.below.add(user, role)
    }

    fn remove(&mut self, user: u32, role: u32) -> bool {
        self.below.remove(user, role)
    }

    fn clear(&mut self) {
        self.below.clear();
    }
}
