// Where the lines stand that a central wrote before its code, and the last of them that begins with
// `ID`.
ghost use Rattle.std.specs.Prelude.{false, map, ◌≡◌, ◌≤◌, ◌<◌, length};
ghost use Rattle.line.specs.Character.{printable};
ghost use Rattle.line.specs.Parity.{seven_bits};
ghost use Rattle.reply.specs.Inner as Inner;
ghost use Rattle.reply.specs.Remarks as Spec;

use crate::{Meaning, Reply, read};
use line::character::{CR, Class, LF, is};

// A part of a reply: `&reply[begin..end]`.
#[repr(C)]
#[derive(Clone, Copy)]
pub struct Span {
    pub begin: usize,
    pub end: usize,
}

// What the central wrote before the code (TAP's message sequence, document 02's places).
#[derive(Clone, Copy)]
pub struct Remarks {
    // The lines, their endings included: where there are none, the empty span at 0.
    pub lines: Span,
    // The last line that begins with `ID`, its ending left out.
    pub id_line: Option<Span>,
}

// The remarks in the bytes as they came off the line, with parity: none of an ID request, or where
// nothing is recognized.
pub fn read_remarks(bytes: &[u8]) -> Option<Remarks>
    ensures { result ≡ Spec.remarks_read bytes.now }
{
    remarks_of(read(bytes), bytes)
}

// The same for a caller that has read them already.
pub fn remarks_of(reply: Reply, bytes: &[u8]) -> Option<Remarks>
    ensures { result ≡ Spec.remarks_of reply bytes.now }
{
    let Some(meaning) = reply else {
        return None;
    };
    if meaning != Meaning::IdRequest {
        return Some(find_lines(bytes));
    }
    None
}

// A search for the ID line: where the line at hand begins, and what was found before it.
#[derive(Clone, Copy)]
pub(crate) struct Search {
    pub begin: usize,
    pub last: Option<Span>,
}

// The lines up to the first character that no line has.
fn find_lines(bytes: &[u8]) -> Remarks
    ensures { result ≡ Spec.lines_shown (map seven_bits bytes.now) }
{
    let mut search = Search {
        begin: 0,
        last: None,
    };
    for (i, b) in bytes.iter().enumerate() {
        let c = b % 0x80;
        if !is(c, Class::Printable) {
            if !is_of_ending(c) {
                return search.shown(i);
            }
            search = search.pass(bytes, i);
        }
    }
    search.shown(bytes.len())
}

// A character of a line's ending.
fn is_of_ending(c: u8) -> bool
    ensures { result ≡ Spec.of_ending c }
{
    (c == CR) | (c == LF)
}

impl Search {
    // What it shows where the lines end.
    fn shown(self, end: usize) -> Remarks
        ensures { result ≡ Inner.shown self end }
    {
        Remarks {
            lines: Span { begin: 0, end },
            id_line: self.last,
        }
    }

    // The search behind the CR or LF at i: another line begins, and the CR ended the one at hand.
    fn pass(self, bytes: &[u8], i: usize) -> Search
        requires { (self.begin ≤ i) × (i < length bytes.now) × (printable (Inner.character_at bytes.now i) ≡ false) }
        ensures { Inner.Passes self bytes.now i result }
    {
        let begin = i + 1;
        if bytes[i] % 0x80 != CR {
            return Search { begin, ..self };
        }
        let last = id_line_at(bytes, self.begin, i).or(self.last);
        Search { begin, last }
    }
}

// The line between two places, where it begins with `ID`.
fn id_line_at(bytes: &[u8], begin: usize, end: usize) -> Option<Span>
    requires { (begin ≤ end) × (end ≤ length bytes.now) }
    ensures { result ≡ Spec.id_at (Spec.line_at begin (Inner.between bytes.now begin end)) }
{
    is_id(&bytes[begin..end]).then_some(Span { begin, end })
}

// The line begins with `ID`.
fn is_id(line: &[u8]) -> bool
    ensures { result ≡ Spec.is_id (map seven_bits line.now) }
{
    let [i, d, ..] = line else {
        return false;
    };
    (i % 0x80 == b'I') & (d % 0x80 == b'D')
}
