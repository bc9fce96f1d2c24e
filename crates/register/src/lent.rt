// A register that is lent is a register: calls through the reference are calls of what it points to. Each is written out, as in
// the seat layer: an impl names every method of its trait.
ghost use Rattle.std.specs.Prelude.{◌≡◌};
ghost use Rattle.register.specs.Model.{lent_by};

use crate::{Register, RegisterFault};

impl<'e, R: Register> Register for &'e mut R {
    ghost model = { λ s. R.Register.model s.now };

    ghost kept = { λ s. lent_by s.ghost_name (R.Register.kept s.now) };

    ghost sound = { λ s. R.Register.sound s.now };

    fn users(&self) -> u32 {
        (**self).users()
    }

    fn places(&self) -> u32 {
        (**self).places()
    }

    fn seats(&self, role: u32) -> u32 {
        (**self).seats(role)
    }

    fn pairs(&self) -> u32 {
        (**self).pairs()
    }

    fn members(&self, role: u32) -> u32 {
        (**self).members(role)
    }

    fn row(&self, user: u32) -> u64 {
        (**self).row(user)
    }

    fn add(&mut self, user: u32, role: u32) -> Result<(), RegisterFault> {
        (**self).add(user, role)
    }

    fn remove(&mut self, user: u32, role: u32) -> bool {
        (**self).remove(user, role)
    }

    fn clear(&mut self) {
        (**self).clear();
    }
}
