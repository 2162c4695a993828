// One transaction more, at the end of a journal that lies at the start of a lent buffer.
#![tactic(auto)]

ghost use Rattle.std.specs.Prelude.{◌≡◌, ◌+◌, ◌/◌, ◌%◌, ◌<◌, ◌≤◌};
ghost use Rattle.std.proofs.Math.ListN as ListN;
ghost use Rattle.line.specs.Answer.{Wrote, overlay};
ghost use Rattle.append.specs.Append.{append_to, behind, extend_to, tail_of};

use journal::Position;
use journal::buffer::{check_in, open_in};
use journal::cursor::{BYTES, LENGTH, RECORDS, TRAILER};
use line::Refusal;
use line::memory::copy;
use line::transaction::{MOST_INFORMATION, check_transaction};

// One transaction more in a journal that is checked whole, and the journal's new length.
pub fn append(buffer: &mut [u8], length: usize, info: &[u8]) -> Result<usize, Refusal>
    ensures { Wrote (append_to buffer.old length info.now)
        result buffer.old buffer.new }
{
    check_in(buffer, length)?;
    check_transaction(info)?;
    extend(buffer, length, info)
}

// The same where journal and information were checked before: only the sizes and the trailer are
// tested, no record and no character.
pub fn extend(buffer: &mut [u8], length: usize, info: &[u8]) -> Result<usize, Refusal>
    ensures { Wrote (extend_to buffer.old length info.now)
        result buffer.old buffer.new }
{
    let position = open_in(buffer, length)?;
    put_behind(buffer, position, info)
}

// A record and the trailer behind the records that end at a position. Only the part of the buffer
// behind the last record is written.
fn put_behind(buffer: &mut [u8], position: Position, info: &[u8]) -> Result<usize, Refusal>
    requires { (ListN.length buffer.old ≡ 32004) × (position.end ≤ 32000) ×
        (position.left ≤ 64) }
    ensures { Wrote (behind buffer.old position info.now)
        result buffer.old buffer.new }
{
    let n = info.len();
    if n < 1 {
        return Err(Refusal::Length);
    }
    if MOST_INFORMATION < n {
        return Err(Refusal::Length);
    }
    let size = position.end;
    let count = position.left + 1;
    let end = size + (n + LENGTH);
    if !((count <= RECORDS) & (end <= BYTES)) {
        return Err(Refusal::Room);
    }
    put_tail(info, count, end, &mut buffer[size..]);
    Ok(end + TRAILER)
}

// A record and the trailer behind it, at the start of the free part.
fn put_tail(info: &[u8], count: usize, size: usize, part: &mut [u8])
    requires { (ListN.length info.now + 6 ≤ ListN.length part.old) × (ListN.length info.now < 65536) ×
        (count < 65536) × (size < 65536) }
    ensures { part.new ≡ overlay (tail_of info.now count size) part.old }
{
    let n = info.len();
    let _ = copy(info, part);
    put_number(n, part, n);
    put_number(count, part, n + 2);
    put_number(size, part, n + 4);
}

// A number in two bytes, high first. It asks for room, so that it is not public, and `delete` has its own.
fn put_number(number: usize, out: &mut [u8], at: usize)
    requires { (at + 2 ≤ ListN.length out.old) × (number < 65536) }
    ensures { out.new ≡
        ListN.set (ListN.set out.old at (number / 256)) (at + 1) (number % 256) }
{
    out[at..at + 2].copy_from_slice(&(number as u16).to_be_bytes());
}
