// Where the lines that the central wrote stand in a reply: as the reply reader answers, and as the
// entry device reports.
use crate::answer::{print_number, print_refusal};
use crate::names::{DASH, SPACE, say};
use line::Refusal;
use reply::{Remarks, Span};
use std::io;
use std::io::Write;

// What the entry device reports, and why where it refuses.
pub(crate) fn print_reported<W: Write>(
    to: &mut W,
    before: &str,
    remarks: Option<Remarks>,
    outcome: Result<usize, Refusal>,
) -> io::Result<()> {
    print_remarks(to, before, remarks)?;
    let Err(refusal) = outcome else {
        return Ok(());
    };
    say(to, SPACE)?;
    print_refusal(to, refusal)
}

// Where the lines stand, and the last ID line among them; no places are `-`.
pub(crate) fn print_remarks<W: Write>(
    to: &mut W,
    before: &str,
    remarks: Option<Remarks>,
) -> io::Result<()> {
    let Some(remarks) = remarks else {
        say(to, before)?;
        return say(to, DASH);
    };
    print_span(to, before, remarks.lines)?;
    match remarks.id_line {
        Some(line) => print_span(to, SPACE, line),
        None => Ok(()),
    }
}

// Where bytes begin, and where they end.
fn print_span<W: Write>(to: &mut W, before: &str, span: Span) -> io::Result<()> {
    print_number(to, before, span.begin)?;
    print_number(to, DASH, span.end)
}
