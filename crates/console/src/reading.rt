// Calls as they are typed: a name, and words parted by single spaces or a text in quotes.
use super::calls::Call;
use script::literals::unquoted;
use std::alloc::{AllocError, Global};
use std::str::from_utf8;

// The call that a line makes; none where it is not understood.
pub(super) fn read_call(heap: Global, line: &[u8]) -> Result<Option<Call>, AllocError> {
    if let Some(typed) = line.strip_prefix(b"fields ") {
        return Ok(unquoted(heap, typed)?.map(Call::Fields));
    }
    let Ok(text) = from_utf8(line) else {
        return Ok(None);
    };
    let words: Vec<&str> = text.split(' ').collect(heap)?;
    Ok(Call::of(&words))
}
