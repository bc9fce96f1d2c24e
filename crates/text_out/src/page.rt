// A place in a lent buffer that moves on with each store: what is stored there are bytes, numbers and lines.
ghost use Rattle.std.specs.Prelude.{decimal};
ghost use Rattle.std.specs.List.{flat_map};
ghost use Rattle.text_out.specs.Written.{further, line, header_line, table};
ghost use Rattle.text_out.specs.Pages.{Room, Appended};

// A lent buffer, and where the next byte goes.
// How much room it has to have depends on what is stored next, so each store asks for it: no invariant of the page says it.
#[derive(Drop)]
pub(crate) struct Page<'a> {
    pub(crate) buffer: &'a mut [u8],
    pub(crate) at: usize,
}

impl Page<'_> {
    // Stores `bytes`.
    fn bytes(&mut self, bytes: &[u8])
        requires { Room self.old bytes.now }
        ensures { Appended self.old bytes.now self.new }
    {
        let end = self.at + bytes.len();
        self.buffer[self.at..end].copy_from_slice(bytes);
        self.at = end;
    }

    // Stores the decimal digits of `n`.
    fn number(&mut self, n: u64)
        requires { Room self.old (decimal n) }
        ensures { Appended self.old (decimal n) self.new }
    {
        if n >= 10 {
            self.number(n / 10);
        }
        self.bytes(&[b'0' + (n % 10) as u8]);
    }

    // Stores a comma and the decimal digits of `n`.
    fn further(&mut self, n: u64)
        requires { Room self.old (further n) }
        ensures { Appended self.old (further n) self.new }
    {
        self.bytes(b",");
        self.number(n);
    }

    // Stores a record's line.
    pub(crate) fn line(&mut self, numbers: &[u64])
        requires { Room self.old (line numbers.now) }
        ensures { Appended self.old (line numbers.now) self.new }
    {
        let Some((first, rest)) = numbers.split_first() else {
            return self.bytes(b"\r\n");
        };
        self.number(*first);
        for n in rest {
            self.further(*n);
        }
        self.bytes(b"\r\n");
    }

    // Stores the header's line.
    pub(crate) fn header(&mut self, header: &[u8])
        requires { Room self.old (header_line header.now) }
        ensures { Appended self.old (header_line header.now) self.new }
    {
        self.bytes(header);
        self.bytes(b"\r\n");
    }

    // Stores the records' lines.
    fn lines<const COLUMNS: usize>(&mut self, records: &[[u64; COLUMNS]])
        requires { Room self.old (flat_map line records.now) }
        ensures { Appended self.old (flat_map line records.now) self.new }
    {
        for record in records {
            self.line(record);
        }
    }

    // Stores a table.
    pub(crate) fn table<const COLUMNS: usize>(&mut self, header: &[u8], records: &[[u64; COLUMNS]])
        requires { Room self.old (table header.now records.now) }
        ensures { Appended self.old (table header.now records.now) self.new }
    {
        self.header(header);
        self.lines(records);
    }
}
