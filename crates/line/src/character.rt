// The control characters of the protocol, as 7-bit values, and tests of characters.
ghost use Rattle.std.specs.Prelude.{◌&&◌, ◌≡◌, leb};
ghost use Rattle.line.specs.Class.{member};
ghost use Rattle.line.specs.Test.{all};

use crate::test::{Test, every};

pub const STX: u8 = 0x02;

pub const ETX: u8 = 0x03;

pub const EOT: u8 = 0x04;

pub const ACK: u8 = 0x06;

pub const LF: u8 = 0x0A;

pub const CR: u8 = 0x0D;

pub const NAK: u8 = 0x15;

pub const ETB: u8 = 0x17;

pub const ESC: u8 = 0x1B;

pub const RS: u8 = 0x1E;

pub const US: u8 = 0x1F;

// A class of characters.
#[derive(Clone, Copy)]
pub enum Class {
    // Below 80 hex.
    SevenBit,
    // 20 to 7E: a character of a field.
    Printable,
    // 20 to 7E, or CR: a character of a transaction's information.
    Textual,
    Digit,
    // A letter or digit.
    Alphanumeric,
}

impl Test for Class {
    ghost passes = { member };

    fn is_passed(self, byte: u8) -> bool {
        is(byte, self)
    }
}

// Every byte is of the class.
pub fn are(text: &[u8], class: Class) -> bool
    ensures { result ≡ all (member class) text.now }
{
    every(text, class)
}

// The byte is of the class.
pub fn is(c: u8, class: Class) -> bool
    ensures { result ≡ member class c }
{
    match class {
        Class::SevenBit => c < 0x80,
        Class::Printable => in_span(0x20, c, 0x7E),
        Class::Textual => in_span(0x20, c, 0x7E) | (c == CR),
        Class::Digit => in_span(0x30, c, 0x39),
        Class::Alphanumeric => in_span(0x30, c, 0x39)
            | in_span(0x41, c, 0x5A)
            | in_span(0x61, c, 0x7A),
    }
}

// Both ends are asked, and no branch is taken: tests of bytes vectorize.
fn in_span(low: u8, c: u8, high: u8) -> bool
    ensures { result ≡ (leb low c && leb c high) }
{
    (low <= c) & (c <= high)
}
