// A text in quotes, as it is typed: bytes that print stand for themselves, and any byte may be escaped.
ghost use Rattle.std.specs.Prelude.{ℕ, List, IfOk, MatchOption};
ghost use Rattle.script.specs.Literals.{HexDigit, ShortEscape, UnitAt, FirstUnit, Spells, Quoted, Literal};

use std::alloc::{AllocError, Global};

// The value of a lowercase hex digit.
fn hex_value(digit: u8) -> Option<u8>
    ensures { MatchOption result ((x : ℕ) → HexDigit digit x → ⊥) (λ x. HexDigit digit x) }
{
    match digit {
        b'0'..=b'9' => Some(digit - b'0'),
        b'a'..=b'f' => Some(digit - b'a' + 10),
        _ => None,
    }
}

// The byte that a letter after a backslash stands for.
fn escaped(after: u8) -> Option<u8>
    ensures { MatchOption result ((b : ℕ) → ShortEscape after b → ⊥) (λ b. ShortEscape after b) }
{
    match after {
        b'r' => Some(b'\r'),
        b'n' => Some(b'\n'),
        b't' => Some(b'\t'),
        b'"' | b'\\' => Some(after),
        _ => None,
    }
}

// The byte that is typed first, as it is or escaped, and what is typed after it.
fn unit(typed: &[u8]) -> Option<(u8, &[u8])>
    ensures { MatchOption result ((b next : ℕ) → UnitAt typed.now 0 b next → ⊥) (λ p. FirstUnit typed.now p.0 p.1.now) }
{
    match typed {
        [b'\\', b'x', high, low, rest @ ..] => {
            Some((hex_value(*high)? * 16 + hex_value(*low)?, rest))
        }
        [b'\\', letter, rest @ ..] => Some((escaped(*letter)?, rest)),
        [b'\\' | b'"', ..] => None,
        [byte @ b' '..=b'~', rest @ ..] => Some((*byte, rest)),
        _ => None,
    }
}

// What stands between the quotes.
fn inside(typed: &[u8]) -> Option<&[u8]>
    ensures { MatchOption result ((inner : List ℕ) → Quoted typed.now inner → ⊥) (λ p. Quoted typed.now p.now) }
{
    typed.strip_prefix(b"\"")?.strip_suffix(b"\"")
}

// The bytes that the typed text, without its quotes, stands for.
fn spelled(heap: Global, typed: &[u8]) -> Result<Option<Vec<u8>>, AllocError>
    ensures { IfOk result (λ o. MatchOption o ((bytes : List ℕ) → Spells typed.now 0 bytes → ⊥) (λ v. Spells typed.now 0 v.items)) }
{
    let mut bytes = Vec::new(heap);
    // a loop: a push may want memory, and a byte that is not understood ends it
    let mut rest = typed;
    while !rest.is_empty() {
        let Some((byte, after)) = unit(rest) else {
            return Ok(None);
        };
        bytes.push(byte)?;
        rest = after;
    }
    Ok(Some(bytes))
}

// The bytes that a text in quotes stands for; none where the typed bytes are no such text.
pub fn unquoted(heap: Global, typed: &[u8]) -> Result<Option<Vec<u8>>, AllocError>
    ensures { IfOk result (λ o. MatchOption o ((bytes : List ℕ) → Literal typed.now bytes → ⊥) (λ v. Literal typed.now v.items)) }
{
    match inside(typed) {
        Some(inner) => spelled(heap, inner),
        None => Ok(None),
    }
}
