// Walking back through a journal's records, newest first: a position by value and a step.
ghost use Rattle.std.specs.Prelude.{◌≡◌, ◌+◌, ◌*◌, ◌≤◌, get_or, length, take};
ghost use Rattle.line.specs.Answer.{map_done, outcome_of};
ghost use Rattle.journal.specs.Walk.{place_of, step_back, step_from, trailer};

use line::Refusal;
use line::transaction::is_legal;

// Where a walk stands: the end of the records that are left, and how many these are.
#[derive(Clone, Copy)]
pub struct Position {
    pub end: usize,
    pub left: usize,
}

// Where a record's information lies, and the position behind it. Flat, as the walk's definitions name its fields.
#[derive(Clone, Copy)]
pub struct Place {
    pub start: usize,
    pub length: usize,
    pub next: Position,
}

// The most records.
pub const RECORDS: usize = 64;

// The most bytes of records.
pub const BYTES: usize = 32000;

// The bytes of the trailer.
pub const TRAILER: usize = 4;

// The bytes of a record's length.
pub const LENGTH: usize = 2;

// The position behind the newest record, from the trailer of a journal lent at its exact length.
pub fn open(journal: &[u8]) -> Result<Position, Refusal>
    ensures { outcome_of result ≡ trailer journal.now }
{
    let n = journal.len();
    if n < TRAILER {
        return Err(Refusal::Journal);
    }
    let left = number_at(journal, n - TRAILER);
    if RECORDS < left {
        return Err(Refusal::Journal);
    }
    let end = number_at(journal, n - LENGTH);
    if BYTES < end {
        return Err(Refusal::Journal);
    }
    if n != end + TRAILER {
        return Err(Refusal::Journal);
    }
    Ok(Position { end, left })
}

// The record before a position; none at the end.
#[tactic(auto, unfolding(crate::specs::Walk::step_from))]
pub fn step_back(journal: &[u8], position: Position) -> Result<Option<Place>, Refusal>
    ensures { outcome_of result ≡ step_from journal.now position }
{
    let end = position.end;
    let left = position.left;
    if journal.len() < end {
        return Err(Refusal::Range);
    }
    if left == 0 {
        if end == 0 {
            return Ok(None);
        }
        return Err(Refusal::Journal);
    }
    let place = record_before(journal, end, left)?;
    Ok(Some(place))
}

// The record that ends there.
fn record_before(journal: &[u8], end: usize, left: usize) -> Result<Place, Refusal>
    requires { (end ≤ length journal.now) × (1 ≤ left) }
    ensures { outcome_of result ≡ map_done (place_of left) (step_back (take end journal.now)) }
{
    if end < LENGTH {
        return Err(Refusal::Journal);
    }
    let n = number_at(journal, end - LENGTH);
    if end < n + LENGTH {
        return Err(Refusal::Journal);
    }
    let start = end - (n + LENGTH);
    let last = start + n;
    if !is_legal(&journal[start..last]) {
        return Err(Refusal::Journal);
    }
    let next = Position {
        end: start,
        left: left - 1,
    };
    Ok(Place {
        start,
        length: n,
        next,
    })
}

// A number in two bytes, high first: `from_be_bytes`, under a name, since three ask for it.
fn number_at(bytes: &[u8], at: usize) -> usize
    requires { at + 2 ≤ length bytes.now }
    ensures { result ≡ get_or bytes.now at 0 * 256 + get_or bytes.now (at + 1) 0 }
{
    usize::from(u16::from_be_bytes([bytes[at], bytes[at + 1]]))
}
