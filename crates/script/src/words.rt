// The words of a call: numbers, and lists of them that name the members of a set.
ghost use Rattle.std.specs.Prelude.{ℕ, ◌↔◌, Decides, MatchOption};
ghost use Rattle.terms.specs.Sets.{In};
ghost use Rattle.script.specs.Words.{Begins, Writes, Names, AllMembers};

use terms::sets::with_member;

// Whether a word begins as a number does: with a digit, which is a 0 only where it stands alone.
fn begins(word: &str) -> bool
    ensures { Decides result (Begins word.now) }
{
    match word.as_bytes() {
        [] => false,
        [b'0', rest @ ..] => rest.is_empty(),
        [first, ..] => first.is_ascii_digit(),
    }
}

// The number that a word writes: `0`, or digits without a leading zero, at most 4294967295.
pub fn number(word: &str) -> Option<u32>
    ensures { MatchOption result ((n : ℕ) → Writes word.now n → ⊥) (λ n. Writes word.now n) }
{
    if !begins(word) {
        return None;
    }
    word.parse::<u32>().ok()
}

// The set of the members that the words name, each at most 63.
pub fn members(words: &[&str]) -> Option<u64>
    ensures { MatchOption result (AllMembers words.now → ⊥) (λ set. (k : ℕ) → In k set ↔ Names words.now k) }
{
    let mut set: u64 = 0;
    for word in words {
        let member = number(word)?;
        if member > 63 {
            return None;
        }
        set = with_member(set, member);
    }
    Some(set)
}
