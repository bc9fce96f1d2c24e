// The writer's parts: numbers, lines and tables, stored in a lent buffer.
#![tactic(auto)]

ghost use Rattle.std.specs.Prelude.{take, IfOk};
ghost use Rattle.text_out.specs.Tables.{Back, RoundTrip};
ghost use Rattle.text_out.specs.Written.{line, header_line, table};
ghost use Rattle.text_out.specs.Stores.{Stored, Fits};

use page::Page;

mod lengths;
mod page;

pub use lengths::{header_len, line_len, table_len};

// Why nothing is written.
#[derive(Clone, Copy, PartialEq, Eq, Debug)]
pub enum WriteFault {
    // the buffer is shorter than the text
    TooShort,
}

// Whether a buffer of `size` bytes has a measured text's bytes from `at` on.
fn check_room(len: Option<usize>, at: usize, size: usize) -> Result<(), WriteFault>
    ensures { Fits len at size result }
{
    let end = len
        .and_then(|len| at.checked_add(len))
        .ok_or(WriteFault::TooShort)?;
    if end <= size {
        Ok(())
    } else {
        Err(WriteFault::TooShort)
    }
}

// The next two differ in what they measure and store; what they share is `check_room` and the page.

// Stores a record's line at `at`, unquoted and ended, and answers the place after it; nothing where the buffer is too short.
pub fn put_line(buffer: &mut [u8], at: usize, numbers: &[u64]) -> Result<usize, WriteFault>
    ensures { Stored buffer.old at (line numbers.now) result buffer.new }
{
    check_room(line_len(numbers), at, buffer.len())?;
    let mut page = Page { buffer, at };
    page.line(numbers);
    Ok(page.at)
}

// Stores the header's line at `at`, ended, and answers the place after it; nothing where the buffer is too short.
pub fn put_header(buffer: &mut [u8], at: usize, header: &[u8]) -> Result<usize, WriteFault>
    ensures { Stored buffer.old at (header_line header.now) result buffer.new }
{
    check_room(header_len(header), at, buffer.len())?;
    let mut page = Page { buffer, at };
    page.header(header);
    Ok(page.at)
}

// Writes a table into the buffer and answers its length, or writes nothing where the buffer is shorter.
pub fn write_table<const COLUMNS: usize>(
    buffer: &mut [u8],
    header: &[u8],
    records: &[[u64; COLUMNS]],
) -> Result<usize, WriteFault>
    ensures text { Stored buffer.old 0 (table header.now records.now) result buffer.new }
    ensures back { IfOk result (λ n. Back header.now records.now (take n buffer.new)) }
    ensures trip { RoundTrip }
{
    check_room(table_len(header, records), 0, buffer.len())?;
    let mut page = Page { buffer, at: 0 };
    page.table(header, records);
    Ok(page.at)
}
