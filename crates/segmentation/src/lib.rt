// Cutting a transaction into blocks, in either way.
#![tactic(auto)]

pub mod way;

ghost use Rattle.std.specs.Prelude.{true, ◌≡◌, ◌+◌, ◌-◌, ◌*◌, ◌<◌, ◌≤◌, min, drop, length};
ghost use Rattle.line.specs.Answer.{Laid, Wrote, done, outcome_of};
ghost use Rattle.line.specs.Transaction.{legal};
ghost use Rattle.block.specs.Block.{block_of, right};
ghost use Rattle.block.specs.Segments.{blocks_of, segment_block};
ghost use Rattle.segmentation.specs.Segmentation.{behind, block_count, cut_by, ending_of, of_cuttable, room_for, segment_at_by, segmentation_by, write_segment, write_segments};
ghost use Rattle.segmentation.specs.declared.way.Way.TheVariants.{Filled, WholeFields};

use block::Ending;
use block::frame::{INFORMATION, OVERHEAD, write};
use line::Refusal;
use line::answer::count;
use line::transaction::{check_transaction, ends_in_cr};
pub use way::Way;
use way::{is_cuttable, next_length};

// Room for the blocks of every transaction whose fields are kept whole: 15 blocks.
pub const ALL_BLOCKS: usize = 2090;

// Room for every block.
const LONGEST: usize = INFORMATION + OVERHEAD;

// How many blocks the information takes; where the way cannot cut it, that number means nothing.
pub fn block_count(way: Way, info: &[u8]) -> usize
    ensures { result ≡ length (segmentation_by way info.now) }
{
    match way {
        Way::Filled => filled_count(info.len()),
        Way::WholeFields => count_segments(way, info),
    }
}

// The block at an index, from 0, of the transaction with this information.
pub fn write_segment(way: Way, info: &[u8], index: usize, out: &mut [u8]) -> Result<usize, Refusal>
    ensures { Wrote
        (write_segment way info.now index (length out.old))
        result out.old out.new }
{
    match way {
        Way::Filled => write_filled(info, index, out),
        Way::WholeFields => write_whole(info, index, out),
    }
}

// All blocks of the transaction with this information, one after the other.
pub fn write_segments(way: Way, info: &[u8], out: &mut [u8]) -> Result<usize, Refusal>
    ensures { Wrote
        (write_segments way info.now (length out.old))
        result out.old out.new }
{
    if out.len() < room_for(way, info) {
        return Err(Refusal::Size);
    }
    check_cuttable(way, info)?;
    Ok(put_segments(way, info, out))
}

// How many blocks information of this length fills.
fn filled_count(length: usize) -> usize
    ensures { result ≡ block_count length }
{
    length.div_ceil(INFORMATION)
}

// How many blocks the information takes, cut by cut.
fn count_segments(way: Way, info: &[u8]) -> usize
    ensures { result ≡ length (segmentation_by way info.now) }
{
    let mut count = 0;
    let mut from = 0;
    // From cut to cut, by the length that the way takes: no `for`.
    while from < info.len() {
        from += next_length(way, &info[from..]);
        count += 1;
    }
    count
}

// The length of the information of a transaction that the way can cut, or why it is none.
fn check_cuttable(way: Way, info: &[u8]) -> Result<usize, Refusal>
    ensures { outcome_of result ≡ of_cuttable way info.now (done (length info.now)) }
{
    let n = check_transaction(info)?;
    if !is_cuttable(way, info) {
        return Err(Refusal::Length);
    }
    Ok(n)
}

// The bytes that all blocks need.
fn room_for(way: Way, info: &[u8]) -> usize
    ensures { result ≡ room_for way info.now }
{
    let n = info.len();
    match way {
        Way::Filled => n + OVERHEAD * filled_count(n),
        Way::WholeFields => ALL_BLOCKS,
    }
}

// The block at an index, each block filled.
fn write_filled(info: &[u8], index: usize, out: &mut [u8]) -> Result<usize, Refusal>
    ensures { Wrote
        (write_segment Filled info.now index (length out.old))
        result out.old out.new }
{
    if filled_count(info.len()) <= index {
        return Err(Refusal::Range);
    }
    if out.len() < segment_length(info.len(), index) + OVERHEAD {
        return Err(Refusal::Size);
    }
    check_transaction(info)?;
    Ok(put_segment(Way::Filled, info, index, out))
}

// The block at an index, with whole fields: which blocks there are is known only of a transaction
// that can be cut so.
fn write_whole(info: &[u8], index: usize, out: &mut [u8]) -> Result<usize, Refusal>
    ensures { Wrote
        (write_segment WholeFields info.now index (length out.old))
        result out.old out.new }
{
    if out.len() < LONGEST {
        return Err(Refusal::Size);
    }
    check_cuttable(Way::WholeFields, info)?;
    if count_segments(Way::WholeFields, info) <= index {
        return Err(Refusal::Range);
    }
    Ok(put_segment(Way::WholeFields, info, index, out))
}

// The length of the segment at an index, each block filled.
fn segment_length(length: usize, index: usize) -> usize
    requires { index < block_count length }
    ensures { result ≡ min 250 (length - 250 * index) }
{
    INFORMATION.min(length - INFORMATION * index)
}

// The block at an index, at the start of the output.
fn put_segment(way: Way, info: &[u8], index: usize, out: &mut [u8]) -> usize
    requires { (legal info.now ≡ true)
        × (index < length (segmentation_by way info.now))
        × (length (segment_at_by way info.now index).info + 6 ≤ length out.old) }
    ensures { Laid
        (segment_block (segment_at_by way info.now index))
        result out.old out.new }
{
    let n = info.len();
    let from = segment_start(way, info, index);
    let end = from + next_length(way, &info[from..]);
    put_piece(&info[from..end], end == n, out)
}

// The blocks one after the other, at the start of the output.
fn put_segments(way: Way, info: &[u8], out: &mut [u8]) -> usize
    requires { (legal info.now ≡ true)
        × (length (blocks_of (segmentation_by way info.now)) ≤ length out.old) }
    ensures { Laid (blocks_of (segmentation_by way info.now)) result out.old out.new }
{
    let n = info.len();
    let mut from = 0;
    let mut at = 0;
    // From cut to cut, as in `count_segments`.
    while from < n {
        let end = from + next_length(way, &info[from..]);
        at += put_piece(&info[from..end], end == n, &mut out[at..]);
        from = end;
    }
    at
}

// Where the segment at an index starts: behind those before it.
fn segment_start(way: Way, info: &[u8], index: usize) -> usize
    ensures { (result ≤ length info.now)
        × (drop result info.now ≡ behind (cut_by way) index info.now) }
{
    let mut from = 0;
    for _ in 0..index {
        from += next_length(way, &info[from..]);
    }
    from
}

// The block of a piece of a transaction, the last or not.
fn put_piece(piece: &[u8], last: bool, out: &mut [u8]) -> usize
    requires { (length piece.now ≤ 250)
        × (right piece.now (ending_of last piece.now) ≡ true)
        × (length piece.now + 6 ≤ length out.old) }
    ensures { Laid
        (block_of piece.now (ending_of last piece.now))
        result out.old out.new }
{
    count(write(piece, segment_ending(piece, last), out))
}

// The ending of the block of a segment.
fn segment_ending(info: &[u8], last: bool) -> Ending
    ensures { result ≡ ending_of last info.now }
{
    if last {
        return Ending::Etx;
    }
    if ends_in_cr(info) {
        return Ending::Etb;
    }
    Ending::Us
}
