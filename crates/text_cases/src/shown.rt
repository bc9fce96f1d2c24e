// How fields, records, faults and bytes are shown.
use std::fmt;
use text::field::{Field, Mark, TextFault};
use text::header::header_end;
use text::number::number;
use text::reader::Reader;
use text::walk::{Walk, WrongRecord, count_records};

// Bytes: those that print as they are, others by their value.
#[derive(Clone, Copy)]
pub(crate) struct Bytes<'a>(pub(crate) &'a [u8]);

impl fmt::Display for Bytes<'_> {
    fn fmt<W: fmt::Write>(&self, f: &mut fmt::Formatter<W>) -> fmt::Result {
        for b in self.0 {
            if matches!(*b, b' '..=b'~') {
                let c = char::from(*b);
                write!(f, "{c}")?;
            } else {
                write!(f, "\\x{b:02x}")?;
            }
        }
        Ok(())
    }
}

// A field: its place, its bytes, in quotes if they stood in quotes, and its mark.
#[derive(Clone, Copy)]
struct Shown<'a>(Field<'a>);

impl fmt::Display for Shown<'_> {
    fn fmt<W: fmt::Write>(&self, f: &mut fmt::Formatter<W>) -> fmt::Result {
        let Field {
            bytes,
            start,
            end,
            quoted,
            mark,
        } = self.0;
        let bytes = Bytes(bytes);
        if quoted {
            write!(f, "[{start}-{end} \"{bytes}\"]")?;
        } else {
            write!(f, "[{start}-{end} {bytes}]")?;
        }
        match mark {
            Mark::Comma => write!(f, ","),
            Mark::Line => write!(f, ";"),
            Mark::End => write!(f, "."),
        }
    }
}

// A fault, and its place: the derived `Debug` would print brackets.
#[derive(Clone, Copy)]
struct Fault(TextFault);

impl fmt::Display for Fault {
    fn fmt<W: fmt::Write>(&self, f: &mut fmt::Formatter<W>) -> fmt::Result {
        match self.0 {
            TextFault::BareLineEnd(place) => write!(f, "BareLineEnd {place}"),
            TextFault::StrayQuote(place) => write!(f, "StrayQuote {place}"),
            TextFault::OpenQuote(place) => write!(f, "OpenQuote {place}"),
            TextFault::AfterQuote(place) => write!(f, "AfterQuote {place}"),
            TextFault::FieldCount(place) => write!(f, "FieldCount {place}"),
        }
    }
}

// All fields of a text, one by one, up to its end or the first fault.
// A loop over the walk, which is no iterator: it may be asked again after a fault, and stays where it stands.
#[derive(Clone, Copy)]
pub(crate) struct Fields<'a>(pub(crate) &'a [u8]);

impl fmt::Display for Fields<'_> {
    fn fmt<W: fmt::Write>(&self, f: &mut fmt::Formatter<W>) -> fmt::Result {
        let mut walk = Walk::new(self.0);
        loop {
            match walk.next_field() {
                Ok(Some(field)) => {
                    let shown = Shown(field);
                    write!(f, "{shown}")?;
                }
                Ok(None) => return Ok(()),
                Err(fault) => {
                    let fault = Fault(fault);
                    return write!(f, "{fault}");
                }
            }
        }
    }
}

// The records of a text with two columns, up to its end or the first fault.
#[derive(Clone, Copy)]
pub(crate) struct Pairs<'a>(pub(crate) &'a [u8]);

impl fmt::Display for Pairs<'_> {
    // record after record, as a reader has no end of its own where one is refused
    fn fmt<W: fmt::Write>(&self, f: &mut fmt::Formatter<W>) -> fmt::Result {
        let mut reader = Reader::new(self.0);
        while !reader.at_end() {
            let mut slots = [Field::empty(); 2];
            if let Err(fault) = reader.next_record(&mut slots) {
                let fault = Fault(fault);
                return write!(f, "{fault}");
            }
            let [first, second] = slots;
            let first = Shown(first);
            let second = Shown(second);
            write!(f, "{first}{second}")?;
        }
        Ok(())
    }
}

// How many records a text has, or its first wrong one.
#[derive(Clone, Copy)]
pub(crate) struct Count<'a>(pub(crate) &'a [u8]);

impl fmt::Display for Count<'_> {
    fn fmt<W: fmt::Write>(&self, f: &mut fmt::Formatter<W>) -> fmt::Result {
        match count_records(self.0) {
            Ok(count) => write!(f, "{count} records"),
            Err(WrongRecord { number, fault }) => {
                let fault = Fault(fault);
                write!(f, "record {number}: {fault}")
            }
        }
    }
}

// The number that bytes write with at most so many digits.
#[derive(Clone, Copy)]
pub(crate) struct Digits<'a>(pub(crate) &'a [u8], pub(crate) usize);

impl fmt::Display for Digits<'_> {
    fn fmt<W: fmt::Write>(&self, f: &mut fmt::Formatter<W>) -> fmt::Result {
        match number(self.0, self.1) {
            Some(n) => write!(f, "{n}"),
            None => write!(f, "no number"),
        }
    }
}

// Where the records begin after this header.
#[derive(Clone, Copy)]
pub(crate) struct Start<'a>(pub(crate) &'a [u8], pub(crate) &'a [u8]);

impl fmt::Display for Start<'_> {
    fn fmt<W: fmt::Write>(&self, f: &mut fmt::Formatter<W>) -> fmt::Result {
        match header_end(self.0, self.1) {
            Some(place) => write!(f, "{place}"),
            None => write!(f, "another header"),
        }
    }
}
