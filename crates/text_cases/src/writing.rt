// What is written into a buffer of full stops: the place after it and the whole buffer.
use crate::shown::Bytes;
use crate::vector::Vector;
use std::fmt;
use text_out::{WriteFault, put_header, put_line, write_table};

// The longest buffer of a vector; a longer one would be shown cut, and come out wrong.
const LONGEST: usize = 32;

// What is stored in a buffer.
pub(crate) trait Store {
    // Stores it, and answers the place after it.
    fn store(&self, buffer: &mut [u8]) -> Result<usize, WriteFault>;
}

// A buffer of so many full stops, and what is stored in it.
#[derive(Drop)]
pub(crate) struct Stored<T>(usize, T);

// The place after it, and the buffer.
impl<T: Store> fmt::Display for Stored<T> {
    fn fmt<W: fmt::Write>(&self, f: &mut fmt::Formatter<W>) -> fmt::Result {
        let mut stops = [b'.'; LONGEST];
        let room = self.0.min(LONGEST);
        let buffer = &mut stops[..room];
        let answer = self.1.store(buffer);
        let bytes = Bytes(buffer);
        match answer {
            Ok(end) => write!(f, "{end}: {bytes}"),
            Err(WriteFault::TooShort) => write!(f, "TooShort: {bytes}"),
        }
    }
}

// A table with two columns: its header and its records.
#[derive(Drop)]
pub(crate) struct Table(&'static [u8], &'static [[u64; 2]]);

impl Store for Table {
    fn store(&self, buffer: &mut [u8]) -> Result<usize, WriteFault> {
        write_table(buffer, self.0, self.1)
    }
}

// A place, and the numbers of the line there.
#[derive(Drop)]
pub(crate) struct Line(usize, &'static [u64]);

impl Store for Line {
    fn store(&self, buffer: &mut [u8]) -> Result<usize, WriteFault> {
        put_line(buffer, self.0, self.1)
    }
}

// A place, and the header there.
#[derive(Drop)]
pub(crate) struct Heading(usize, &'static [u8]);

impl Store for Heading {
    fn store(&self, buffer: &mut [u8]) -> Result<usize, WriteFault> {
        put_header(buffer, self.0, self.1)
    }
}

pub(crate) static TABLES: [Vector<Stored<Table>>; 12] = [
    Vector {
        what: "a table in a buffer exactly long enough",
        shown: Stored(17, Table(b"user,role", &[[12, 4]])),
        expected: "17: user,role\\x0d\\x0a12,4\\x0d\\x0a",
    },
    Vector {
        what: "one byte short",
        shown: Stored(16, Table(b"user,role", &[[12, 4]])),
        expected: "TooShort: ................",
    },
    Vector {
        what: "three bytes to spare",
        shown: Stored(20, Table(b"user,role", &[[12, 4]])),
        expected: "17: user,role\\x0d\\x0a12,4\\x0d\\x0a...",
    },
    Vector {
        what: "a buffer of length 0",
        shown: Stored(0, Table(b"user,role", &[[12, 4]])),
        expected: "TooShort: ",
    },
    Vector {
        what: "a header without records",
        shown: Stored(12, Table(b"user,role", &[])),
        expected: "11: user,role\\x0d\\x0a.",
    },
    Vector {
        what: "a header without records, one byte short",
        shown: Stored(10, Table(b"user,role", &[])),
        expected: "TooShort: ..........",
    },
    Vector {
        what: "an empty header",
        shown: Stored(2, Table(b"", &[])),
        expected: "2: \\x0d\\x0a",
    },
    Vector {
        what: "an empty header and one byte",
        shown: Stored(1, Table(b"", &[])),
        expected: "TooShort: .",
    },
    Vector {
        what: "three records in their order",
        shown: Stored(24, Table(b"u,r", &[[9, 10], [0, 0], [99, 100]])),
        expected: "24: u,r\\x0d\\x0a9,10\\x0d\\x0a0,0\\x0d\\x0a99,100\\x0d\\x0a",
    },
    Vector {
        what: "a record twice",
        shown: Stored(16, Table(b"u,r", &[[1, 2], [1, 2]])),
        expected: "15: u,r\\x0d\\x0a1,2\\x0d\\x0a1,2\\x0d\\x0a.",
    },
    Vector {
        what: "0 and the largest number",
        shown: Stored(29, Table(b"u,r", &[[0, 18446744073709551615]])),
        expected: "29: u,r\\x0d\\x0a0,18446744073709551615\\x0d\\x0a",
    },
    Vector {
        what: "the same, one byte short",
        shown: Stored(28, Table(b"u,r", &[[0, 18446744073709551615]])),
        expected: "TooShort: ............................",
    },
];

pub(crate) static LINES: [Vector<Stored<Line>>; 8] = [
    Vector {
        what: "a line up to the buffer's end",
        shown: Stored(13, Line(3, &[7, 10, 100])),
        expected: "13: ...7,10,100\\x0d\\x0a",
    },
    Vector {
        what: "a line with bytes after it",
        shown: Stored(15, Line(3, &[7, 10, 100])),
        expected: "13: ...7,10,100\\x0d\\x0a..",
    },
    Vector {
        what: "a line for which a byte is wanting",
        shown: Stored(12, Line(3, &[7, 10, 100])),
        expected: "TooShort: ............",
    },
    Vector {
        what: "a line of one number",
        shown: Stored(6, Line(0, &[1000])),
        expected: "6: 1000\\x0d\\x0a",
    },
    Vector {
        what: "a line without numbers",
        shown: Stored(3, Line(0, &[])),
        expected: "2: \\x0d\\x0a.",
    },
    Vector {
        what: "a line at the buffer's end",
        shown: Stored(4, Line(4, &[1])),
        expected: "TooShort: ....",
    },
    Vector {
        what: "a line past the buffer's end",
        shown: Stored(4, Line(5, &[])),
        expected: "TooShort: ....",
    },
    Vector {
        what: "a line at the largest place",
        shown: Stored(4, Line(usize::MAX, &[1])),
        expected: "TooShort: ....",
    },
];

pub(crate) static HEADINGS: [Vector<Stored<Heading>>; 3] = [
    Vector {
        what: "a header at place 2",
        shown: Stored(6, Heading(2, b"ab")),
        expected: "6: ..ab\\x0d\\x0a",
    },
    Vector {
        what: "a header with a byte after it",
        shown: Stored(7, Heading(2, b"ab")),
        expected: "6: ..ab\\x0d\\x0a.",
    },
    Vector {
        what: "a header for which a byte is wanting",
        shown: Stored(5, Heading(2, b"ab")),
        expected: "TooShort: .....",
    },
];
