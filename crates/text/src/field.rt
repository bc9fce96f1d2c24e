// One field of a text, and what ends it.
ghost use Rattle.std.specs.Prelude.{◌≡◌, ◌^◌, ◌<◌, false, []};
ghost use Rattle.text.specs.Scans.{past};

// What ends a field: a comma, CR LF, or the text's end.
#[derive(Clone, Copy, PartialEq, Eq, Debug)]
pub enum Mark {
    Comma,
    Line,
    End,
}

// One field: the bytes between its marks with the quotes taken off, the place of the first and the place after the last,
// whether it stood in quotes, and what ends it.
#[derive(Clone, Copy, PartialEq, Eq, Debug)]
pub struct Field<'a> {
    pub bytes: &'a [u8],
    pub start: usize,
    pub end: usize,
    // of every field it is true or false, as of a `Span`: an enum of two would be no plainer
    pub quoted: bool,
    pub mark: Mark,
}

impl<'a> Field<'a> {
    // A field with no bytes, for a slot that is still to be filled.
    pub fn empty() -> Field<'static>
        ensures bytes { result.bytes.now ≡ [] }
        ensures place { (result.start ≡ 0) × (result.end ≡ 0) × (result.quoted ≡ false) × (result.mark ≡ Mark.End) }
    {
        Field {
            bytes: b"",
            start: 0,
            end: 0,
            quoted: false,
            mark: Mark::End,
        }
    }

    // Where the field stands.
    pub(crate) fn span(&self) -> Span
        ensures { (result.quoted ≡ self.now.quoted) × (result.start ≡ self.now.start) × (result.end ≡ self.now.end) }
    {
        Span {
            quoted: self.quoted,
            start: self.start,
            end: self.end,
        }
    }
}

// What is wrong with a record, and the place, counted from 0 in the text: that of the byte, but for an open quote and a wrong
// number of fields the record's end.
#[derive(Clone, Copy, PartialEq, Eq, Debug)]
pub enum TextFault {
    // a CR or an LF outside quotes that is no part of a CR LF
    BareLineEnd(usize),
    // a quote in a field that does not begin with one
    StrayQuote(usize),
    // a quote that is never closed
    OpenQuote(usize),
    // a byte after a closing quote that begins no mark
    AfterQuote(usize),
    // not the expected number of fields
    FieldCount(usize),
}

// Where a field stands, before its mark is known: quotes are not counted in.
#[derive(Clone, Copy, PartialEq, Eq, Debug)]
pub(crate) struct Span {
    pub(crate) quoted: bool,
    pub(crate) start: usize,
    pub(crate) end: usize,
}

impl Span {
    // The place after the closing quote where the field is quoted, else that after its last byte.
    pub(crate) fn past_quote(&self) -> usize
        requires { past self.now.quoted self.now.end < 2 ^ 64 }
        ensures { result ≡ past self.now.quoted self.now.end }
    {
        if self.quoted { self.end + 1 } else { self.end }
    }
}
