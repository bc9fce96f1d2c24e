// Registers: who is assigned to which role, within a number of users, of places and of seats.
#![tactic(auto)]

ghost use Rattle.std.specs.Prelude.{◌≡◌};
ghost use Rattle.std.specs.Option.{option_map};
ghost use Rattle.std.specs.Result.{result_err};
ghost use Rattle.register.specs.Pairs.{row, pairs, members};
ghost use Rattle.register.specs.Model.{Model, Sound, Kept, users_of, seats_of, holds};
ghost use Rattle.register.specs.Changes.{shown, add_rows, added, removed, cleared};

pub mod fault;
pub mod laws;
pub mod lent;
pub mod seats;

pub use crate::fault::RegisterFault;

// What integrators implement. Every register means a `Model`, which is sound at every moment;
// each call says what it answers and which model it leaves, for every state.
pub trait Register {
    // The register's meaning: its users and pairs as rows, its places, its seats.
    ghost model: { Self → Model };

    // What no call changes of the memory that was lent to it.
    ghost kept: { Self → Kept };

    // The meaning is sound at every moment.
    ghost sound: { (s : Self) → Sound (model s) };

    // The number of users; user numbers are below it.
    fn users(&self) -> u32
        ensures { result ≡ users_of (model self.now) };

    // The number of places, which is the most pairs that it may hold.
    fn places(&self) -> u32
        ensures { result ≡ (model self.now).places };

    // The seats of a role, which are the most members that it may be given; a role above 63 has none.
    fn seats(&self, role: u32) -> u32
        ensures { result ≡ seats_of (model self.now) role };

    // The number of pairs that it holds.
    fn pairs(&self) -> u32
        ensures { result ≡ pairs (model self.now).rows };

    // The number of a role's members; a role above 63 has none.
    fn members(&self, role: u32) -> u32
        ensures { result ≡ members (model self.now).rows role };

    // The roles of a user, who has none where he is not below the number of users.
    fn row(&self, user: u32) -> u64
        ensures { result ≡ row (model self.now).rows user };

    // Adds the pair, unless it is held already or a row of `add_rows` refuses it. A pair is two arguments, as a map's key and
    // value are: a struct of them would be made at each call and taken apart in each body.
    fn add(&mut self, user: u32, role: u32) -> Result<(), RegisterFault>
        ensures answer { option_map shown (result_err result) ≡ add_rows (model self.old) user role }
        ensures model { model self.new ≡ added (model self.old) user role }
        ensures kept { kept self.new ≡ kept self.old };

    // Takes the pair out, and says whether it was held.
    fn remove(&mut self, user: u32, role: u32) -> bool
        ensures answer { result ≡ holds (model self.old) user role }
        ensures model { model self.new ≡ removed (model self.old) user role }
        ensures kept { kept self.new ≡ kept self.old };

    // Takes all pairs out.
    fn clear(&mut self)
        ensures model { model self.new ≡ cleared (model self.old) }
        ensures kept { kept self.new ≡ kept self.old };
}
