// A cursor that holds the journal it is lent beside the place where it stands, and thin methods over it: the work is `cursor`'s.
ghost use Rattle.std.specs.Prelude.{◌≡◌};
ghost use Rattle.line.specs.Answer.{outcome_of};
ghost use Rattle.journal.specs.Walk.{cursor_at, first_step, step_on};

use crate::cursor::{Place, open, step_back};
use line::Refusal;

// The journal that is walked, lent at its exact length, and where the walk stands: at a record, at
// the end, or why nowhere.
#[derive(Clone, Copy)]
pub struct Cursor<'a> {
    pub journal: &'a [u8],
    pub at: Result<Option<Place>, Refusal>,
}

impl<'a> Cursor<'a> {
    // A cursor at the newest record.
    pub fn new(journal: &'a [u8]) -> Cursor<'a>
        ensures { (result.journal ≡ journal.entry) ×
            (outcome_of result.at ≡ first_step journal.now) }
    {
        let at = first_step(journal);
        Cursor { journal, at }
    }

    // The cursor at the next older record.
    pub fn next(self) -> Cursor<'a>
        ensures { (result.journal ≡ self.entry.journal) ×
            (outcome_of result.at ≡ step_on self.entry.journal.now self.entry.at) }
    {
        let at = step_on(self.journal, self.at);
        Cursor {
            journal: self.journal,
            at,
        }
    }
}

// The newest record, from the trailer.
fn first_step(journal: &[u8]) -> Result<Option<Place>, Refusal>
    ensures { outcome_of result ≡ first_step journal.now }
{
    step_back(journal, open(journal)?)
}

// The record before a place; past the end, and where the walk was refused, there is none.
fn step_on(journal: &[u8], at: Result<Option<Place>, Refusal>) -> Result<Option<Place>, Refusal>
    ensures { outcome_of result ≡ step_on journal.now at }
{
    match at? {
        Some(place) => step_back(journal, place.next),
        None => Ok(None),
    }
}

// Where a cursor stands after so many steps from the newest record.
pub fn step_at(journal: &[u8], index: usize) -> Result<Option<Place>, Refusal>
    ensures { outcome_of result ≡ cursor_at journal.now index }
{
    let mut cursor = Cursor::new(journal);
    for _ in 0..index {
        cursor = cursor.next();
    }
    cursor.at
}
