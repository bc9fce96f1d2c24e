// How long the written text is, of a line, of the header and of a table.
ghost use Rattle.std.specs.Prelude.{◌≡◌, ◌≤◌, length, decimal};
ghost use Rattle.text_out.specs.Written.{line, header_line, table};
ghost use Rattle.text_out.specs.Stores.{Measured, Lengthened};

// How many digits `n` has. By recursion, as the digits are stored: what the library says of its logarithm is by powers of ten,
// and no lemma leads from there to the digits.
fn width(n: u64) -> usize
    ensures value { result ≡ length (decimal n) }
    ensures bound { result ≤ 20 }
{
    if n < 10 { 1 } else { width(n / 10) + 1 }
}

// The length of a record's line; none where no buffer holds it.
pub fn line_len(numbers: &[u64]) -> Option<usize>
    ensures { Measured (line numbers.now) result }
{
    let Some((first, rest)) = numbers.split_first() else {
        return Some(2);
    };
    rest.iter()
        .try_fold(width(*first) + 2, |len, n| len.checked_add(width(*n) + 1))
}

// The length of the header's line; none where no buffer holds it.
pub fn header_len(header: &[u8]) -> Option<usize>
    ensures { Measured (header_line header.now) result }
{
    header.len().checked_add(2)
}

// The length of a table's text; none where no buffer holds it. A table is a header and records, two arguments wherever it is
// measured or written: a struct of both would be made for that alone.
pub fn table_len<const COLUMNS: usize>(header: &[u8], records: &[[u64; COLUMNS]]) -> Option<usize>
    ensures { Measured (table header.now records.now) result }
{
    records.iter().try_fold(
        header_len(header)?,
        |len, record| -> Option<usize>
            ensures { Lengthened len (line record.now) result }
        {
            let more = line_len(record)?;
            len.checked_add(more)
        },
    )
}
