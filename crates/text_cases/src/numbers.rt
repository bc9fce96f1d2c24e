// Numbers and headers.
use crate::shown::{Digits, Start};
use crate::vector::Vector;

// Bytes, the most digits that a number may have, and the number.
pub(crate) static NUMBERS: [Vector<Digits>; 16] = [
    Vector {
        what: "one digit",
        shown: Digits(b"7", 4),
        expected: "7",
    },
    Vector {
        what: "two digits",
        shown: Digits(b"10", 4),
        expected: "10",
    },
    Vector {
        what: "three digits",
        shown: Digits(b"908", 4),
        expected: "908",
    },
    Vector {
        what: "four digits",
        shown: Digits(b"4095", 4),
        expected: "4095",
    },
    Vector {
        what: "five digits of four",
        shown: Digits(b"10000", 4),
        expected: "no number",
    },
    Vector {
        what: "five digits of five",
        shown: Digits(b"10000", 5),
        expected: "10000",
    },
    Vector {
        what: "0",
        shown: Digits(b"0", 4),
        expected: "0",
    },
    Vector {
        what: "00",
        shown: Digits(b"00", 4),
        expected: "no number",
    },
    Vector {
        what: "a leading zero",
        shown: Digits(b"012", 4),
        expected: "no number",
    },
    Vector {
        what: "no digits",
        shown: Digits(b"", 4),
        expected: "no number",
    },
    Vector {
        what: "a plus sign",
        shown: Digits(b"+1", 4),
        expected: "no number",
    },
    Vector {
        what: "a minus sign",
        shown: Digits(b"-1", 4),
        expected: "no number",
    },
    Vector {
        what: "a space before",
        shown: Digits(b" 1", 4),
        expected: "no number",
    },
    Vector {
        what: "a space after",
        shown: Digits(b"1 ", 4),
        expected: "no number",
    },
    Vector {
        what: "the bytes beside the digits",
        shown: Digits(b"1/:", 4),
        expected: "no number",
    },
    Vector {
        what: "no digit allowed",
        shown: Digits(b"0", 0),
        expected: "no number",
    },
];

pub(crate) static LONG_NUMBERS: [Vector<Digits>; 5] = [
    Vector {
        what: "the largest of four digits",
        shown: Digits(b"9999", 4),
        expected: "9999",
    },
    Vector {
        what: "19 digits",
        shown: Digits(b"9999999999999999999", 19),
        expected: "9999999999999999999",
    },
    Vector {
        what: "20 digits of 20",
        shown: Digits(b"10000000000000000000", 20),
        expected: "no number",
    },
    Vector {
        what: "hex",
        shown: Digits(b"0x1", 4),
        expected: "no number",
    },
    Vector {
        what: "a letter last",
        shown: Digits(b"12a", 4),
        expected: "no number",
    },
];

// A text, a header, and where the records begin.
pub(crate) static HEADERS: [Vector<Start>; 9] = [
    Vector {
        what: "the header of example 3",
        shown: Start(
            b"field_name,field_name,field_name\r\naaa,bbb,ccc\r\n",
            b"field_name,field_name,field_name",
        ),
        expected: "34",
    },
    Vector {
        what: "a header alone",
        shown: Start(b"user,role", b"user,role"),
        expected: "9",
    },
    Vector {
        what: "a header and its end",
        shown: Start(b"user,role\r\n", b"user,role"),
        expected: "11",
    },
    Vector {
        what: "a header one byte short",
        shown: Start(b"user,rol\r\n", b"user,role"),
        expected: "another header",
    },
    Vector {
        what: "a header one byte long",
        shown: Start(b"user,role \r\n", b"user,role"),
        expected: "another header",
    },
    Vector {
        what: "a header ended by a bare LF",
        shown: Start(b"user,role\n1,2\r\n", b"user,role"),
        expected: "another header",
    },
    Vector {
        what: "a header in quotes",
        shown: Start(b"\"user\",\"role\"\r\n", b"user,role"),
        expected: "another header",
    },
    Vector {
        what: "no bytes for a header",
        shown: Start(b"", b"user,role"),
        expected: "another header",
    },
    Vector {
        what: "an empty header",
        shown: Start(b"\r\n1,2", b""),
        expected: "2",
    },
];
