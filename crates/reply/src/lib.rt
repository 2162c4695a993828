// What the entry device may read. Every byte string has exactly the meaning that the grammar of
// document 01 gives it; any other string is unrecognized, and carries nothing to act on.
#![tactic(auto)]

pub mod remarks;

ghost use Rattle.std.specs.Prelude.{◌&&◌, ◌||◌, ◌≡◌, ◌≤◌, eqb, length, drop};
ghost use Rattle.line.specs.Character.{CR, LF};
ghost use Rattle.reply.specs.Reading.{reply_read, text_read, code_read, accepts, requests, after_lines, closes, finishes, ends};

use line::character::{ACK, CR, Class, EOT, ESC, LF, NAK, RS, is};
use line::memory::is_same;
use line::parity::clear_parity;
pub use remarks::{Remarks, Span};

// What a reply means.
#[derive(Clone, Copy, Debug, PartialEq, Eq)]
pub enum Meaning {
    // `ID=`: the central asks who calls.
    IdRequest,
    // The logon is accepted, and the central is ready.
    Acceptance,
    Ack,
    Nak,
    Rs,
    // ESC EOT: the central hangs up.
    Eot,
}

// What was read, to be taken apart by `let .. else`: `None` is unrecognized.
pub type Reply = Option<Meaning>;

// The longest reply.
pub const MOST_REPLY: usize = 256;

// The meaning of the bytes as they came off the line, with parity.
pub fn read(bytes: &[u8]) -> Reply
    ensures { result ≡ reply_read bytes.now }
{
    let mut text = [0u8; MOST_REPLY];
    let Ok(n) = clear_parity(bytes, &mut text) else {
        return None;
    };
    read_text(&text[..n])
}

// The meaning of a text, its parity taken off.
#[tactic(auto, unfolding(crate::specs::Reading::text_read))]
fn read_text(text: &[u8]) -> Reply
    ensures { result ≡ text_read text.now }
{
    if requests(text) {
        return Some(Meaning::IdRequest);
    }
    read_code(&text[lines_end(text)..])
}

// The meaning of what follows the lines.
#[tactic(auto, unfolding(crate::specs::Reading::code_read))]
fn read_code(text: &[u8]) -> Reply
    ensures { result ≡ code_read text.now }
{
    if closes(text, &[ACK]) {
        return Some(Meaning::Ack);
    }
    if closes(text, &[NAK]) {
        return Some(Meaning::Nak);
    }
    if closes(text, &[RS]) {
        return Some(Meaning::Rs);
    }
    if closes(text, &[ESC, EOT]) {
        return Some(Meaning::Eot);
    }
    if accepts(text) {
        return Some(Meaning::Acceptance);
    }
    None
}

// The rest of a logon acceptance: ACK and its CR or CR LF, lines, then ESC `[p` and CR or CR LF.
fn accepts(text: &[u8]) -> bool
    ensures { result ≡ accepts text.now }
{
    if !text.starts_with(&[ACK, CR]) {
        return false;
    }
    let lines = &text[1..];
    closes(&lines[lines_end(lines)..], &[ESC, b'[', b'p'])
}

// The text is an ID request.
fn requests(text: &[u8]) -> bool
    ensures { result ≡ requests text.now }
{
    let Some(rest) = text.strip_prefix(b"ID=") else {
        return false;
    };
    finishes(rest.strip_prefix(b" ").unwrap_or(rest))
}

// Where the whole lines end that the text begins with.
fn lines_end(text: &[u8]) -> usize
    ensures { (result ≤ length text.now) × (drop result text.now ≡ after_lines text.now) }
{
    let mut rest = 0;
    let mut ended = false;
    for (i, &c) in text.iter().enumerate() {
        if !is(c, Class::Printable) {
            if !ends_line(c, ended) {
                return rest;
            }
            rest = i + 1;
        }
        ended = c == CR;
    }
    rest
}

// A control character that ends a line, or the LF that may follow its CR.
fn ends_line(c: u8, ended: bool) -> bool
    ensures { result ≡ (eqb c CR || ended && eqb c LF) }
{
    c == CR || ended && c == LF
}

// The code, then CR or CR LF, and nothing more.
fn closes(text: &[u8], code: &[u8]) -> bool
    ensures { result ≡ closes code.now text.now }
{
    let Some(rest) = text.strip_prefix(code) else {
        return false;
    };
    ends(rest)
}

// Nothing, or CR or CR LF and nothing more.
fn finishes(text: &[u8]) -> bool
    ensures { result ≡ finishes text.now }
{
    text.is_empty() || ends(text)
}

// CR or CR LF, and nothing more.
fn ends(text: &[u8]) -> bool
    ensures { result ≡ ends text.now }
{
    is_same(text, &[CR]) || is_same(text, &[CR, LF])
}
