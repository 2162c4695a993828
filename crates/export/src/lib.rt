// A journal written out as the lines that bring it in again.
#![tactic(auto)]

ghost use Rattle.std.specs.Prelude.{◌≡◌, ◌+◌, ◌≤◌};
ghost use Rattle.std.proofs.Math.ListN as ListN;
ghost use Rattle.line.specs.Answer.{Laid, Wrote, map_done, outcome_of};
ghost use Rattle.export.specs.Export.{Adds, Exportable, lines_of, page_lines, pages_from, pages_in, transactions_of, written_out};

use admission::is_page;
use journal::Position;
use journal::cursor::{LENGTH, TRAILER, open, step_back};
use line::Refusal;
use line::character::CR;
use line::memory::{copy, find};

// The longest answer of any journal.
pub const ROOM: usize = 33024;

// The records, oldest first, as lines PAGE, MESS and SEND, each with CR LF.
pub fn write_out(journal: &[u8], out: &mut [u8]) -> Result<usize, Refusal>
    ensures { Wrote
        (written_out journal.now (ListN.length out.old))
        result out.old out.new }
{
    if out.len() < ROOM {
        return Err(Refusal::Size);
    }
    check_pages(journal)?;
    Ok(put_pages(journal, out))
}

// How many records the journal has, or why it is not written out.
fn check_pages(journal: &[u8]) -> Result<usize, Refusal>
    ensures { outcome_of result ≡ map_done ListN.length (pages_in journal.now) }
{
    check_from(journal, open(journal)?)
}

// The same from a position: a record that is no page is told of only where the journal is well formed.
fn check_from(journal: &[u8], position: Position) -> Result<usize, Refusal>
    requires { position.end ≤ ListN.length journal.now }
    ensures { outcome_of result ≡ map_done ListN.length (pages_from journal.now position) }
{
    let count = position.left;
    let mut at = position;
    let mut every = true;
    while let Some(place) = step_back(journal, at)? {
        let start = place.start;
        let end = start + place.length;
        every &= is_page(&journal[start..end]);
        at = place.next;
    }
    if every {
        Ok(count)
    } else {
        Err(Refusal::Information)
    }
}

// The lines of a journal all of whose records are pages.
fn put_pages(journal: &[u8], out: &mut [u8]) -> usize
    requires { Exportable journal.now out.old }
    ensures { Laid (lines_of (transactions_of journal.now)) result out.old out.new }
{
    let end = journal.len() - TRAILER;
    let mut at = 0;
    let mut n = 0;
    // From record to record, by the lengths found: no `for`.
    while at < end {
        let first = find(journal, at, CR);
        let second = find(journal, first + 1, CR);
        n = put_page(&journal[at..first], &journal[first + 1..second], out, n);
        at = second + 1 + LENGTH;
    }
    n
}

// The three lines of a page, behind what is there.
fn put_page(pager: &[u8], message: &[u8], out: &mut [u8], at: usize) -> usize
    requires { at + (ListN.length pager.now + ListN.length message.now + 20) ≤ ListN.length out.old }
    ensures { Adds at (page_lines pager.now message.now) result out.old out.new }
{
    let first = put_text(b"PAGE ", out, at);
    let second = put_text(pager, out, first);
    let third = put_text(b"\r\nMESS ", out, second);
    let fourth = put_text(message, out, third);
    put_text(b"\r\nSEND\r\n", out, fourth)
}

// A text, behind what is there. `listing` has the same: it asks for room, and no public function asks anything.
fn put_text(text: &[u8], out: &mut [u8], at: usize) -> usize
    requires { at + ListN.length text.now ≤ ListN.length out.old }
    ensures { Adds at text.now result out.old out.new }
{
    let _ = copy(text, &mut out[at..]);
    at + text.len()
}
