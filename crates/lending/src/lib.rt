// What a caller knows of its memory when a register that it lent comes back: all of it.
#![tactic(auto)]

ghost use Rattle.std.specs.Prelude.{◌≡◌};
ghost use Rattle.std.specs.Option.{option_map};
ghost use Rattle.std.specs.Result.{result_err};
ghost use Rattle.bit_rows.specs.Table.{model_of};
ghost use Rattle.register.specs.Changes.{shown, add_rows, added, cleared};
ghost use Rattle.register.specs.Layer.{seated};
ghost use Rattle.lending.specs.Whole.{whole, twice_seated};

use bit_rows::BitRows;
use register::seats::SeatLayer;
use register::{Register, RegisterFault};

// Below, a user and a role are two arguments, as in the calls of `Register` that they are passed on to; so are two layers'
// seats, each for its own call.

// Adds a pair to the pairs that a table of words holds.
pub fn add_to_table(table: &mut [u64], user: u32, role: u32) -> Result<(), RegisterFault>
    ensures answer { option_map shown (result_err result) ≡ add_rows (model_of table.old) user role }
    ensures table { table.new ≡ whole (added (model_of table.old) user role) table.old }
{
    BitRows::new(table).add(user, role)
}

// Empties a lent register, and adds a pair to it under a layer of seats.
pub fn start_seated<R: Register>(
    register: &mut R,
    seats: [u32; 64],
    user: u32,
    role: u32,
) -> Result<(), RegisterFault>
    ensures answer { option_map shown (result_err result) ≡ add_rows (seated seats (cleared (R.Register.model register.old))) user role }
    ensures rows { (R.Register.model register.new).rows ≡ (added (seated seats (cleared (R.Register.model register.old))) user role).rows }
    ensures kept { R.Register.kept register.new ≡ R.Register.kept register.old }
{
    SeatLayer::new(register, seats).add(user, role)
}

// The same under two layers of seats.
pub fn start_twice_seated<R: Register>(
    register: &mut R,
    inner: [u32; 64],
    outer: [u32; 64],
    user: u32,
    role: u32,
) -> Result<(), RegisterFault>
    ensures answer { option_map shown (result_err result) ≡ add_rows (twice_seated inner outer (R.Register.model register.old)) user role }
    ensures rows { (R.Register.model register.new).rows ≡ (added (twice_seated inner outer (R.Register.model register.old)) user role).rows }
    ensures kept { R.Register.kept register.new ≡ R.Register.kept register.old }
{
    start_seated(&mut SeatLayer::new(register, inner), outer, user, role)
}

// Empties a table of words, and adds a pair to it under two layers of seats.
pub fn start_in_table(
    table: &mut [u64],
    inner: [u32; 64],
    outer: [u32; 64],
    user: u32,
    role: u32,
) -> Result<(), RegisterFault>
    ensures answer { option_map shown (result_err result) ≡ add_rows (twice_seated inner outer (model_of table.old)) user role }
    ensures table { table.new ≡ whole (added (twice_seated inner outer (model_of table.old)) user role) table.old }
{
    start_twice_seated(&mut BitRows::new(table), inner, outer, user, role)
}
