// An answer, printed piece by piece; before a piece goes what its first argument names.
use crate::names;
use crate::names::{DASH, NOTHING, REFUSED, SPACE, say};
use line::Refusal;
use reply::{Meaning, Reply};
use std::io;
use std::io::Write;

// What the sum of a digest is reduced by.
const MODULUS: usize = 1000003;

// A number in decimal.
pub(crate) fn print_number<W: Write>(to: &mut W, before: &str, n: usize) -> io::Result<()> {
    say(to, before)?;
    write!(to, "{n}")
}

// Bytes in hex; no bytes are `-`.
pub(crate) fn print_bytes<W: Write>(to: &mut W, before: &str, bytes: &[u8]) -> io::Result<()> {
    say(to, before)?;
    if bytes.is_empty() {
        say(to, DASH)?;
    }
    for b in bytes {
        write!(to, "{b:02x}")?;
    }
    Ok(())
}

// How many bytes, and these.
pub(crate) fn print_counted<W: Write>(to: &mut W, before: &str, bytes: &[u8]) -> io::Result<()> {
    print_number(to, before, bytes.len())?;
    print_bytes(to, SPACE, bytes)
}

// Long bytes by their number and a sum that tells places apart.
pub(crate) fn print_digest<W: Write>(to: &mut W, before: &str, bytes: &[u8]) -> io::Result<()> {
    print_number(to, before, bytes.len())?;
    print_number(to, SPACE, digest(bytes))
}

// The sum of the bytes, each times its place from 1: the sum of the sums from each place on.
fn digest(bytes: &[u8]) -> usize {
    let mut sums = 0usize;
    let mut sum = 0usize;
    for &b in bytes.iter().rev() {
        sum = sum.wrapping_add(b as usize);
        sums = sums.wrapping_add(sum);
    }
    sums % MODULUS
}

// A count, or why there is none.
pub(crate) fn print_count<W: Write>(to: &mut W, outcome: Result<usize, Refusal>) -> io::Result<()> {
    match outcome {
        Ok(n) => print_number(to, NOTHING, n),
        Err(refusal) => print_refusal(to, refusal),
    }
}

pub(crate) fn print_refusal<W: Write>(to: &mut W, refusal: Refusal) -> io::Result<()> {
    print_number(to, REFUSED, u8::from(refusal) as usize)
}

// A word of the calls' file, which reply does not know; a `Display` for reply's type can't stand here.
pub(crate) fn reply_name(reply: Reply) -> &'static str {
    let Some(meaning) = reply else {
        return names::UNRECOGNIZED;
    };
    match meaning {
        Meaning::IdRequest => names::ID_REQUEST,
        Meaning::Acceptance => names::ACCEPTANCE,
        Meaning::Ack => names::ACK,
        Meaning::Nak => names::NAK,
        Meaning::Rs => names::RS,
        Meaning::Eot => names::EOT,
    }
}
