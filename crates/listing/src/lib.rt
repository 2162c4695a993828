// What the program `blocks` prints for one line of its input. An output and the place where it goes on
// are lent apart, and its room is asked of a list that the definitions take whole.
#![tactic(auto)]

ghost use Rattle.std.specs.Prelude.{true, ◌≡◌, ◌+◌, ◌-◌, ◌%◌, ◌<◌, ◌≤◌, ltb, length, set, if◌then◌else◌};
ghost use mathlib.Core.List.{◌++◌, flat_map};
ghost use Rattle.line.specs.Answer.{Laid, Wrote, done, outcome_of, refusal_number};
ghost use Rattle.line.specs.Character.{CR, printable};
ghost use Rattle.line.specs.Test.{all};
ghost use Rattle.block.specs.Checksum as Checksum;
ghost use Rattle.segmentation.specs.Segmentation.{block_count, segment_at};
ghost use Rattle.listing.specs.Listing.{Added, Cut, checked_line, fields_of, line_end, listed};
ghost use Rattle.listing.specs.Listing.{printed_block, printed_blocks, printed_refusal, segment_of, shown};

use block::checksum::{add, checksum, sum_characters};
use block::frame::INFORMATION;
use line::Refusal;
use line::character::{CR, Class, ETB, ETX, LF, STX, US, are};
use line::memory::find;

// Room for what any line prints.
pub const ROOM: usize = 10248;

// The most characters of a line: a transaction's, less the CR at its end.
const LINE: usize = 1999;

// CR in the place of a space, in a sum modulo 4,096.
const CR_FOR_SPACE: u16 = 4077;

// The blocks of the transaction that a line is, cut at its first space into two fields, each block
// printed on a line of its own; or the line `refused` with the number.
pub fn list(line: &[u8], out: &mut [u8]) -> Result<usize, Refusal>
    ensures { Wrote
        (listed line.now (length out.old))
        result out.old out.new }
{
    if out.len() < ROOM {
        return Err(Refusal::Size);
    }
    match check(line) {
        Ok(space) => Ok(put_line(line, space, out)),
        Err(refusal) => Ok(put_refusal(refusal, out)),
    }
}

// The place of the line's first space; or why it has no blocks.
fn check(line: &[u8]) -> Result<usize, Refusal>
    ensures { outcome_of result ≡ checked_line line.now }
{
    if LINE < line.len() {
        return Err(Refusal::Length);
    }
    if !are(line, Class::Printable) {
        if are(line, Class::SevenBit) {
            return Err(Refusal::Information);
        }
        return Err(Refusal::Parity);
    }
    let space = find(line, 0, b' ');
    if space == line.len() {
        return Err(Refusal::Information);
    }
    Ok(space)
}

// The refusal on a line of its own.
fn put_refusal(refusal: Refusal, out: &mut [u8]) -> usize
    requires { 10 ≤ length out.old }
    ensures { Laid (printed_refusal (refusal_number refusal)) result out.old out.new }
{
    let mut text = *b"refused 0\n";
    text[8] = b'0' + u8::from(refusal);
    put_text(&text, out, 0)
}

// The blocks of the transaction that a line is, printed from the line itself: no memory holds its CRs.
// The last stands behind the loop, which a line of one block never enters.
fn put_line(line: &[u8], space: usize, out: &mut [u8]) -> usize
    requires { (checked_line line.now ≡ done space) × (10248 ≤ length out.old) }
    ensures { Laid (printed_blocks (fields_of line.now)) result out.old out.new }
{
    let last = line.len() / INFORMATION;
    let mut at = 0;
    for index in 0..last {
        at = put_block(line, space, index, out, at);
    }
    put_block(line, space, last, out, at)
}

// The block at an index, behind what is there.
fn put_block(line: &[u8], space: usize, index: usize, out: &mut [u8], at: usize) -> usize
    requires { (checked_line line.now ≡ done space)
        × (index < block_count (length line.now + 1))
        × (at + 1281 ≤ length out.old) }
    ensures { Added at
        (printed_block (segment_at (fields_of line.now) index))
        result out.old out.new }
{
    let from = INFORMATION * index;
    let full = from + INFORMATION;
    let end = line.len().min(full);
    put_part(&line[from..end], place(space, from), end < full, out, at)
}

// The place of the space in the characters of a block that start there; one behind them where it
// stands before them.
fn place(space: usize, from: usize) -> usize
    ensures { result ≡ (if ltb space from then 250 else space - from) }
{
    if space < from {
        return INFORMATION;
    }
    space - from
}

// The block of these characters of a line, with CR in the place of the space, and behind them where
// it is the last.
fn put_part(part: &[u8], space: usize, last: bool, out: &mut [u8], at: usize) -> usize
    requires { Cut part.now space × (at + 1281 ≤ length out.old) }
    ensures { Added at
        (printed_block (segment_of part.now space last))
        result out.old out.new }
{
    let start = put_text(b"<STX>", out, at);
    let end = put_shown(part, space, out, start);
    let sum = add(part_sum(part, space), STX);
    if last {
        return put_end(b"<CR><ETX>", add(add(sum, CR), ETX), out, end);
    }
    if space + 1 == part.len() {
        return put_end(b"<ETB>", add(sum, ETB), out, end);
    }
    put_end(b"<US>", add(sum, US), out, end)
}

// The characters as they are printed.
fn put_shown(part: &[u8], space: usize, out: &mut [u8], at: usize) -> usize
    requires { (all printable part.now ≡ true) × (at + length part.now + 3 ≤ length out.old) }
    ensures { Added at
        (flat_map shown (set part.now space CR))
        result out.old out.new }
{
    if part.len() <= space {
        return put_text(part, out, at);
    }
    let first = put_text(&part[..space], out, at);
    let second = put_text(b"<CR>", out, first);
    put_text(&part[space + 1..], out, second)
}

// The sum of their values, modulo 4,096.
fn part_sum(part: &[u8], space: usize) -> u16
    requires { Cut part.now space }
    ensures { (result < 8192) × (result % 4096 ≡ Checksum.checksum (set part.now space CR)) }
{
    let sum = checksum(part);
    if space < part.len() {
        return (sum + CR_FOR_SPACE) % 4096;
    }
    sum
}

// The end of a block: the names of its last characters, the check of the sum, CR, and the end of the
// line.
fn put_end(names: &[u8], sum: u16, out: &mut [u8], at: usize) -> usize
    requires { at + length names.now + 8 ≤ length out.old }
    ensures { Added at
        (names.now ++ line_end (sum % 4096))
        result out.old out.new }
{
    let end = put_text(names, out, at);
    let check = sum_characters(sum);
    let line_end = [check[0], check[1], check[2], b'<', b'C', b'R', b'>', LF];
    put_text(&line_end, out, end)
}

// A text, behind what is there. `export` has the same: it asks for room, and no public function asks anything.
fn put_text(text: &[u8], out: &mut [u8], at: usize) -> usize
    requires { at + length text.now ≤ length out.old }
    ensures { Added at text.now result out.old out.new }
{
    let end = at + text.len();
    out[at..end].copy_from_slice(text);
    end
}
