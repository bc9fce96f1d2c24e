// The laws that every register keeps, whatever it is made of.
ghost use Rattle.register.specs.Fits.{Laws};

use crate::Register;

// Each change is exact: of all pairs, only the named one comes or goes. A cleared register fits,
// what fits still fits after a change, and each pair of an assignment that fits is accepted, in any order.
pub fn keeps_laws<R: Register>(register: &R)
    ensures { Laws (R.Register.model register.now) }
{}
