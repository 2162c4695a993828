// Records taken out of a journal in its own memory. Nothing is written before the walk back has met every record; then, oldest
// first, each record that is kept moves down to the end of those kept before it.
ghost use Rattle.std.specs.Prelude.{◌++◌, reverse, ◌≡◌, ◌+◌, ◌≤◌, ◌<◌, if◌then◌else◌};
ghost use Rattle.std.proofs.Math.ListN as ListN;
ghost use Rattle.line.specs.Answer.{Wrote, and_then, map_done, overlay};
ghost use Rattle.journal.specs.Cursor.{walk_from};
ghost use Rattle.journal.specs.Encoding.{encode};
ghost use Rattle.journal.specs.Storage.{decode_in};
ghost use Rattle.delete.specs.Inner.{Compacts, kept_from, moved_down, one_more, removed_from, trailer_of, without};

use crate::choice::{Choice, is_chosen};
use journal::Position;
use journal::buffer::open_in;
use journal::cursor::{LENGTH, TRAILER, step_back};
use line::Refusal;

// The journal of this length without the records that are chosen, and its new length.
pub(crate) fn remove(journal: &mut [u8], length: usize, choice: Choice) -> Result<usize, Refusal>
    ensures { Wrote (map_done encode (and_then (decode_in journal.old length) (without choice)))
        result journal.old journal.new }
{
    let position = open_in(journal, length)?;
    remove_before(journal, position, choice)
}

// The same from the position that the trailer gives.
fn remove_before(journal: &mut [u8], position: Position, choice: Choice) -> Result<usize, Refusal>
    requires { (position.end + 4 ≤ ListN.length journal.old) × (position.end ≤ 32000) × (position.left ≤ 64) }
    ensures { Wrote (map_done encode (removed_from choice journal.old position))
        result journal.old journal.new }
{
    let kept = compact(journal, position, 1, choice)?;
    if kept.left == position.left {
        return Err(Refusal::Range);
    }
    put_trailer(journal, kept.end, kept.left, kept.end);
    Ok(kept.end + TRAILER)
}

// The records before a position without those that are chosen, the newest of them of this rank from the newest of all: where
// they end now, and how many they are.
fn compact(
    journal: &mut [u8],
    position: Position,
    rank: usize,
    choice: Choice,
) -> Result<Position, Refusal>
    requires { (position.end ≤ ListN.length journal.old) × (rank + position.left ≤ 65) }
    ensures { Compacts (map_done (λ rs. reverse (kept_from choice rank rs)) (walk_from journal.old position))
        result journal.old journal.new }
{
    let Some(found) = step_back(journal, position)? else {
        return Ok(Position { end: 0, left: 0 });
    };
    let start = found.start;
    let end = start + found.length;
    let chosen = is_chosen(choice, rank, &journal[start..end]);
    let kept = compact(journal, found.next, rank + 1, choice)?;
    Ok(keep(journal, kept, chosen, start, found.length + LENGTH))
}

// A record of this size moves down to the end of those kept, and is the newest of them, unless it is chosen.
fn keep(journal: &mut [u8], kept: Position, chosen: bool, start: usize, size: usize) -> Position
    requires { (kept.end ≤ start) × (start + size ≤ ListN.length journal.old) × (kept.left ≤ 64) }
    ensures { (result ≡ (if chosen then kept else one_more kept size)) ×
        (journal.new ≡
        (if chosen then journal.old else moved_down kept.end start size journal.old)) }
{
    if chosen {
        return kept;
    }
    let end = kept.end;
    let more = Position {
        end: end + size,
        left: kept.left + 1,
    };
    if end == start {
        return more;
    }
    journal.copy_within(start..start + size, end);
    more
}

// The trailer of so many records of so many bytes, at a place.
fn put_trailer(journal: &mut [u8], at: usize, count: usize, size: usize)
    requires { (at + 4 ≤ ListN.length journal.old) × (count < 65536) × (size < 65536) }
    ensures { journal.new ≡
        overlay (ListN.take at journal.old ++ trailer_of count size) journal.old }
{
    journal[at..at + 2].copy_from_slice(&(count as u16).to_be_bytes());
    journal[at + 2..at + 4].copy_from_slice(&(size as u16).to_be_bytes());
}
