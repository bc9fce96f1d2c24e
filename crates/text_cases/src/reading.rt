// Texts, and their fields as they are expected: the place and the bytes of each, then a comma, a semicolon for CR LF or a full
// stop for the text's end.
use crate::shown::{Count, Fields, Pairs};
use crate::vector::Vector;

// The examples of RFC 4180, section 2.
pub(crate) static RFC: [Vector<Fields>; 7] = [
    Vector {
        what: "1, each record on a line of its own",
        shown: Fields(b"aaa,bbb,ccc\r\nzzz,yyy,xxx\r\n"),
        expected: "[0-3 aaa],[4-7 bbb],[8-11 ccc];[13-16 zzz],[17-20 yyy],[21-24 xxx];",
    },
    Vector {
        what: "2, no end of the last line",
        shown: Fields(b"aaa,bbb,ccc\r\nzzz,yyy,xxx"),
        expected: "[0-3 aaa],[4-7 bbb],[8-11 ccc];[13-16 zzz],[17-20 yyy],[21-24 xxx].",
    },
    Vector {
        what: "3, a header",
        shown: Fields(b"field_name,field_name,field_name\r\naaa,bbb,ccc\r\nzzz,yyy,xxx\r\n"),
        expected: "[0-10 field_name],[11-21 field_name],[22-32 field_name];[34-37 aaa],[38-41 bbb],[42-45 ccc];[47-50 zzz],[51-54 yyy],[55-58 xxx];",
    },
    Vector {
        what: "4, commas between fields",
        shown: Fields(b"aaa,bbb,ccc"),
        expected: "[0-3 aaa],[4-7 bbb],[8-11 ccc].",
    },
    Vector {
        what: "5, quotes",
        shown: Fields(b"\"aaa\",\"bbb\",\"ccc\"\r\nzzz,yyy,xxx"),
        expected: "[1-4 \"aaa\"],[7-10 \"bbb\"],[13-16 \"ccc\"];[19-22 zzz],[23-26 yyy],[27-30 xxx].",
    },
    Vector {
        what: "6, a line end in quotes",
        shown: Fields(b"\"aaa\",\"b\r\nbb\",\"ccc\"\r\nzzz,yyy,xxx"),
        expected: "[1-4 \"aaa\"],[7-12 \"b\\x0d\\x0abb\"],[15-18 \"ccc\"];[21-24 zzz],[25-28 yyy],[29-32 xxx].",
    },
    Vector {
        what: "7, a doubled quote",
        shown: Fields(b"\"aaa\",\"b\"\"bb\",\"ccc\""),
        expected: "[1-4 \"aaa\"],[7-12 \"b\"\"bb\"],[15-18 \"ccc\"].",
    },
];

// Right texts.
pub(crate) static RIGHT: [Vector<Fields>; 18] = [
    Vector {
        what: "no bytes",
        shown: Fields(b""),
        expected: "",
    },
    Vector {
        what: "one byte",
        shown: Fields(b"a"),
        expected: "[0-1 a].",
    },
    Vector {
        what: "an empty line",
        shown: Fields(b"\r\n"),
        expected: "[0-0 ];",
    },
    Vector {
        what: "two empty lines",
        shown: Fields(b"\r\n\r\n"),
        expected: "[0-0 ];[2-2 ];",
    },
    Vector {
        what: "an empty line between two",
        shown: Fields(b"a\r\n\r\nb\r\n"),
        expected: "[0-1 a];[3-3 ];[5-6 b];",
    },
    Vector {
        what: "one comma",
        shown: Fields(b","),
        expected: "[0-0 ],[1-1 ].",
    },
    Vector {
        what: "a comma and a line end",
        shown: Fields(b",\r\n"),
        expected: "[0-0 ],[1-1 ];",
    },
    Vector {
        what: "an empty field first, in the middle and last",
        shown: Fields(b",a\r\na,,b\r\na,"),
        expected: "[0-0 ],[1-2 a];[4-5 a],[6-6 ],[7-8 b];[10-11 a],[12-12 ].",
    },
    Vector {
        what: "spaces belong to the field",
        shown: Fields(b" aaa, bbb ,ccc "),
        expected: "[0-4  aaa],[5-10  bbb ],[11-15 ccc ].",
    },
    Vector {
        what: "quotes around nothing",
        shown: Fields(b"\"\""),
        expected: "[1-1 \"\"].",
    },
    Vector {
        what: "quotes around one quote",
        shown: Fields(b"\"\"\"\""),
        expected: "[1-3 \"\"\"\"].",
    },
    Vector {
        what: "quotes around two quotes",
        shown: Fields(b"\"\"\"\"\"\",x"),
        expected: "[1-5 \"\"\"\"\"\"],[7-8 x].",
    },
    Vector {
        what: "a doubled quote first and last",
        shown: Fields(b"\"\"\"a\"\"\"\r\n"),
        expected: "[1-6 \"\"\"a\"\"\"];",
    },
    Vector {
        what: "a comma in quotes",
        shown: Fields(b"\"a,b\",c"),
        expected: "[1-4 \"a,b\"],[6-7 c].",
    },
    Vector {
        what: "a bare CR and a bare LF in quotes",
        shown: Fields(b"\"\r\",\"\n\""),
        expected: "[1-2 \"\\x0d\"],[5-6 \"\\x0a\"].",
    },
    Vector {
        what: "quotes after an empty field",
        shown: Fields(b",\"a\"\r\n\"b\","),
        expected: "[0-0 ],[2-3 \"a\"];[7-8 \"b\"],[10-10 ].",
    },
    Vector {
        what: "bytes that do not print",
        shown: Fields(b"\x00,\x7f\x80,\"\xff\""),
        expected: "[0-1 \\x00],[2-4 \\x7f\\x80],[6-7 \"\\xff\"].",
    },
    Vector {
        what: "tabs, apostrophes and semicolons are no marks",
        shown: Fields(b"a\tb,'c,d';e"),
        expected: "[0-3 a\\x09b],[4-6 'c],[7-11 d';e].",
    },
];

// Wrong texts: the fields before the fault, and its place.
pub(crate) static WRONG: [Vector<Fields>; 18] = [
    Vector {
        what: "a bare LF",
        shown: Fields(b"a\nb"),
        expected: "BareLineEnd 1",
    },
    Vector {
        what: "a bare CR",
        shown: Fields(b"a\rb"),
        expected: "BareLineEnd 1",
    },
    Vector {
        what: "a bare LF alone",
        shown: Fields(b"\n"),
        expected: "BareLineEnd 0",
    },
    Vector {
        what: "a CR at the text's end",
        shown: Fields(b"a,b\r"),
        expected: "[0-1 a],BareLineEnd 3",
    },
    Vector {
        what: "LF CR",
        shown: Fields(b"a\n\r"),
        expected: "BareLineEnd 1",
    },
    Vector {
        what: "two CR and an LF",
        shown: Fields(b"a\r\r\n"),
        expected: "BareLineEnd 1",
    },
    Vector {
        what: "a bare LF in the second record",
        shown: Fields(b"a,b\r\nc,d\n"),
        expected: "[0-1 a],[2-3 b];[5-6 c],BareLineEnd 8",
    },
    Vector {
        what: "a stray quote",
        shown: Fields(b"a\"b"),
        expected: "StrayQuote 1",
    },
    Vector {
        what: "a stray quote after a space",
        shown: Fields(b"a, \"b\""),
        expected: "[0-1 a],StrayQuote 3",
    },
    Vector {
        what: "a stray quote at the end",
        shown: Fields(b"a,b\""),
        expected: "[0-1 a],StrayQuote 3",
    },
    Vector {
        what: "an open quote",
        shown: Fields(b"\"a"),
        expected: "OpenQuote 2",
    },
    Vector {
        what: "one quote alone",
        shown: Fields(b"\""),
        expected: "OpenQuote 1",
    },
    Vector {
        what: "three quotes",
        shown: Fields(b"\"\"\""),
        expected: "OpenQuote 3",
    },
    Vector {
        what: "a quote that stays open over lines",
        shown: Fields(b"a,\"b\r\nc\r\n"),
        expected: "[0-1 a],OpenQuote 9",
    },
    Vector {
        what: "a byte after a closing quote",
        shown: Fields(b"\"a\"b"),
        expected: "AfterQuote 3",
    },
    Vector {
        what: "a space after a closing quote",
        shown: Fields(b"\"a\" ,b"),
        expected: "AfterQuote 3",
    },
    Vector {
        what: "a bare LF after a closing quote",
        shown: Fields(b"\"a\"\nb"),
        expected: "BareLineEnd 3",
    },
    Vector {
        what: "a bare CR after a closing quote",
        shown: Fields(b"x,\"a\"\r"),
        expected: "[0-1 x],BareLineEnd 5",
    },
];

// Texts of two columns, record by record.
pub(crate) static PAIRS: [Vector<Pairs>; 8] = [
    Vector {
        what: "two columns",
        shown: Pairs(b"12,4\r\n14,5"),
        expected: "[0-2 12],[3-4 4];[6-8 14],[9-10 5].",
    },
    Vector {
        what: "two empty columns",
        shown: Pairs(b","),
        expected: "[0-0 ],[1-1 ].",
    },
    Vector {
        what: "one field for two",
        shown: Pairs(b"12\r\n"),
        expected: "FieldCount 2",
    },
    Vector {
        what: "an empty line for two fields",
        shown: Pairs(b"12,4\r\n\r\n"),
        expected: "[0-2 12],[3-4 4];FieldCount 6",
    },
    Vector {
        what: "three fields for two",
        shown: Pairs(b"1,2,3\r\n"),
        expected: "FieldCount 5",
    },
    Vector {
        what: "three fields at the end, the last in quotes",
        shown: Pairs(b"1,2,\"3\""),
        expected: "FieldCount 7",
    },
    Vector {
        what: "a fault before the number of fields",
        shown: Pairs(b"1,2,3\""),
        expected: "StrayQuote 5",
    },
    Vector {
        what: "a fault in the second field",
        shown: Pairs(b"1,2\n"),
        expected: "BareLineEnd 3",
    },
];

// How many records.
pub(crate) static COUNTS: [Vector<Count>; 7] = [
    Vector {
        what: "count of no bytes",
        shown: Count(b""),
        expected: "0 records",
    },
    Vector {
        what: "count of one empty line",
        shown: Count(b"\r\n"),
        expected: "1 records",
    },
    Vector {
        what: "count with a last end",
        shown: Count(b"a\r\nb,c\r\n"),
        expected: "2 records",
    },
    Vector {
        what: "count without a last end",
        shown: Count(b"a\r\nb,c"),
        expected: "2 records",
    },
    Vector {
        what: "count of a line end in quotes",
        shown: Count(b"\"a\r\nb\",c\r\n"),
        expected: "1 records",
    },
    Vector {
        what: "first wrong record",
        shown: Count(b"a\r\nb\"\r\nc\"\r\n"),
        expected: "record 2: StrayQuote 4",
    },
    Vector {
        what: "last record wrong",
        shown: Count(b"a\r\nb\r\n\""),
        expected: "record 3: OpenQuote 7",
    },
];
