// A script's lines.
ghost use Rattle.std.specs.Prelude.{◌≡◌, ◌<◌, [], length, MatchOption};
ghost use Rattle.script.specs.Lines.{NoLf, FirstLf, WithoutCr, FirstLine, LineStep};
ghost use Rattle.std.specs.Iterator.{at_most};

// The place of the first LF.
fn first_lf(script: &[u8]) -> Option<usize>
    ensures { MatchOption result (NoLf script.now) (λ i. FirstLf script.now i) }
{
    script.iter().position(|byte| *byte == b'\n')
}

// The line without the one CR that may stand before its LF.
fn without_cr(line: &[u8]) -> &[u8]
    ensures { WithoutCr line.now result.now }
{
    line.strip_suffix(b"\r").unwrap_or(line)
}

// The first line, without its end, and what follows it; none where the script is at its end. The last line needs no LF.
pub fn next_line(script: &[u8]) -> Option<(&[u8], &[u8])>
    ensures cut { MatchOption result (script.now ≡ []) (λ p. FirstLine script.now p.0.now p.1.now) }
    ensures shorter { MatchOption result (length script.now ≡ 0) (λ p. length p.1.now < length script.now) }
{
    if script.is_empty() {
        return None;
    }
    match first_lf(script) {
        Some(i) => Some((without_cr(&script[..i]), &script[i + 1..])),
        None => Some((script, &[])),
    }
}

// The lines of a script, one after the other, without their ends.
#[derive(Clone, Copy, Debug)]
pub struct Lines<'a> {
    rest: &'a [u8],
}

impl<'a> Lines<'a> {
    pub fn new(script: &'a [u8]) -> Lines<'a>
        ensures { result.rest ≡ script.entry }
    {
        Lines { rest: script }
    }
}

impl<'a> Iterator for Lines<'a> {
    type Item = &'a [u8];

    ghost next_gives = { λ s r t. LineStep s.rest.now r t.rest.now };

    // each line takes a byte or more
    ghost remaining = { λ s. at_most (length s.rest.now) };

    fn next(&mut self) -> Option<&'a [u8]> {
        let (line, after) = next_line(self.rest)?;
        self.rest = after;
        Some(line)
    }
}
