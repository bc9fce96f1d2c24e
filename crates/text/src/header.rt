// The header's line.
ghost use Rattle.std.specs.Prelude.{◌≤◌, length, MatchOption};
ghost use Rattle.text.specs.FirstLine.{FirstLine, Headed, NotHeaded};

// The place of the first CR LF and the place after it, or the text's end for both.
fn first_line(text: &[u8]) -> (usize, usize)
    ensures line { FirstLine text.now result.0 result.1 }
    ensures within { (result.0 ≤ length text.now) × (result.1 ≤ length text.now) }
{
    match text
        .windows(2)
        .position(|pair| matches!(pair, [b'\r', b'\n']))
    {
        Some(i) => (i, i + 2),
        None => (text.len(), text.len()),
    }
}

// The place where the records begin, if the bytes before the first CR LF, or all, are the header. Not by `strip_prefix`: a
// header with a CR LF in it heads no text.
pub fn header_end(text: &[u8], header: &[u8]) -> Option<usize>
    ensures { MatchOption result (NotHeaded header.now text.now) (λ at. Headed header.now text.now at × (at ≤ length text.now)) }
{
    let (end, next) = first_line(text);
    if &text[..end] == header {
        Some(next)
    } else {
        None
    }
}
