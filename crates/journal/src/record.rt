// Reading a journal lent at its exact length: how many records, and each of them.
ghost use Rattle.std.specs.Prelude.{reverse, ◌≡◌, ◌≤◌, length};
ghost use Rattle.line.specs.Answer.{map_done, outcome_of};
ghost use Rattle.journal.specs.Cursor.{walk_from};
ghost use Rattle.journal.specs.Survey.{HandedNewest, HandedOldest, survey_of};
ghost use Rattle.journal.specs.Walk.{decode};

use crate::cursor::{Position, open, step_back};
use line::Refusal;

// Where the information of a record lies in the journal.
#[derive(Clone, Copy)]
pub struct Extent {
    pub start: usize,
    pub length: usize,
}

// How many records there are, where the one that was asked for lies, and the one behind it. An
// extent of no bytes is no record, as the readers hand back no bytes: no Option.
#[derive(Clone, Copy)]
pub struct Located {
    pub count: usize,
    pub here: Extent,
    pub next: Extent,
}

// One walk over the journal, which checks it and finds the record at an index from the oldest,
// which is 0, and the one behind it.
pub fn survey(journal: &[u8], index: usize) -> Result<Located, Refusal>
    ensures { outcome_of result ≡ map_done (survey_of index) (decode journal.now) }
{
    survey_from(journal, open(journal)?, index)
}

// The same from a position: `last` is the record met before, so the one behind in the journal.
fn survey_from(journal: &[u8], position: Position, index: usize) -> Result<Located, Refusal>
    requires { position.end ≤ length journal.now }
    ensures { outcome_of result ≡
        map_done (λ rs. survey_of index (reverse rs)) (walk_from journal.now position) }
{
    let count = position.left;
    let mut at = position;
    let mut last = Extent {
        start: 0,
        length: 0,
    };
    let mut here = last;
    let mut next = last;
    while let Some(place) = step_back(journal, at)? {
        at = place.next;
        let met = Extent {
            start: place.start,
            length: place.length,
        };
        if at.left == index {
            here = met;
            next = last;
        }
        last = met;
    }
    Ok(Located { count, here, next })
}

// How many records the journal has, or that it is not well formed.
pub fn check(journal: &[u8]) -> Result<usize, Refusal>
    ensures { outcome_of result ≡ map_done length (decode journal.now) }
{
    let found = survey(journal, 0)?;
    Ok(found.count)
}

// The information of the record at an index from the oldest, which is 0: the very part of the
// journal where it lies. Nothing where there is none, or the journal is not well formed.
pub fn oldest(journal: &[u8], index: usize) -> &[u8]
    ensures { HandedOldest journal.now index journal.entry.ref_ptr result.now result.ref_ptr }
{
    let Ok(found) = survey(journal, index) else {
        return &journal[..0];
    };
    let here = found.here;
    let start = here.start;
    let end = start + here.length;
    &journal[start..end]
}

// The same from the newest, which is 0.
pub fn newest(journal: &[u8], index: usize) -> &[u8]
    ensures { HandedNewest journal.now index journal.entry.ref_ptr result.now result.ref_ptr }
{
    let Ok(position) = open(journal) else {
        return &journal[..0];
    };
    let count = position.left;
    if count <= index {
        return &journal[..0];
    }
    oldest(journal, count - 1 - index)
}
