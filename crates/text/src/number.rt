// Numbers in fields.
ghost use Rattle.std.specs.Prelude.{◌^◌, ◌<◌, IfSome, MatchOption};
ghost use Rattle.text.specs.Laws.{SameNumber};
ghost use Rattle.text.specs.Numbers.{Number, NoNumber, counted};

use crate::field::Field;

// The most digits that a number may have, whatever the limit: more do not fit in 64 bits.
const MOST_DIGITS: usize = 19;

// The number that the bytes write, if they are one to `limit` digits without a leading zero, save 0 itself; a limit above 19
// counts as 19.
pub fn number(bytes: &[u8], limit: usize) -> Option<u64>
    ensures value { MatchOption result (NoNumber (counted limit) bytes.now) (λ n. Number (counted limit) bytes.now n) }
    ensures bound { IfSome result (λ n. n < 10 ^ counted limit) }
{
    if matches!(bytes, [] | [b'0', _, ..]) || bytes.len() > limit.min(MOST_DIGITS) {
        return None;
    }
    let mut n: u64 = 0;
    for b in bytes {
        if !b.is_ascii_digit() {
            return None;
        }
        n = n * 10 + u64::from(*b - b'0');
    }
    Some(n)
}

impl<'a> Field<'a> {
    // The number that the field writes, quoted or not, with at most `limit` digits.
    pub fn number(&self, limit: usize) -> Option<u64>
        ensures value { MatchOption result (NoNumber (counted limit) self.now.bytes.now) (λ n. Number (counted limit) self.now.bytes.now n) }
        ensures bound { IfSome result (λ n. n < 10 ^ counted limit) }
        ensures content { SameNumber }
    {
        number(self.bytes, limit)
    }
}
