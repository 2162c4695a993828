// Joining the blocks of a transaction again, a block at a time, in a buffer that the caller lends.
#![tactic(auto)]

ghost use Rattle.std.specs.Prelude.{◌≡◌, ◌-◌, length};
ghost use Rattle.reassembly.specs.Reassembly.{Joined, in_range, join_block};
ghost use Rattle.reassembly.specs.Reassembly as Joining;

use block::Ending;
use block::frame::{OVERHEAD, inside, read};
use line::Refusal;
use line::character::{Class, are};
use line::transaction::{MOST_INFORMATION, ends_in_cr};

// How many characters have been joined, at the start of the buffer, and whether a block with ETX
// was among them: two facts, and no Option, as an unfinished transaction has a length too.
#[derive(Clone, Copy)]
pub struct Reassembly {
    pub length: usize,
    pub complete: bool,
}

// The state before the first block.
pub fn start() -> Reassembly
    ensures { result ≡ Joining.start }
{
    Reassembly {
        length: 0,
        complete: false,
    }
}

// One block more, with its parity taken off: its information goes behind what has been joined. The
// buffer has 2,000 bytes or more. Answers the next state, or why no block was joined.
pub fn reassemble(state: Reassembly, block: &[u8], buffer: &mut [u8]) -> Result<Reassembly, Refusal>
    ensures { Joined
        (join_block state buffer.old block.now)
        result buffer.old buffer.new }
{
    if !in_range(state, buffer) {
        return Err(Refusal::Range);
    }
    if buffer.len() < MOST_INFORMATION {
        return Err(Refusal::Size);
    }
    let length = state.length;
    if MOST_INFORMATION < length + information_length(block) {
        return Err(Refusal::Length);
    }
    let ending = read(block)?;
    if state.complete {
        return Err(Refusal::Information);
    }
    let info = inside(block);
    let next = length + info.len();
    buffer[length..next].copy_from_slice(info);
    Ok(Reassembly {
        length: next,
        complete: ending == Ending::Etx,
    })
}

fn in_range(state: Reassembly, buffer: &[u8]) -> bool
    ensures { result ≡ in_range state buffer.now }
{
    let length = state.length;
    if MOST_INFORMATION < length {
        return false;
    }
    let end = length.min(buffer.len());
    let joined = &buffer[..end];
    if !are(joined, Class::Textual) {
        return false;
    }
    if !state.complete {
        return true;
    }
    ends_in_cr(joined)
}

// The length of a block's information, by the length of the block.
fn information_length(block: &[u8]) -> usize
    ensures { result ≡ length block.now - 6 }
{
    block.len().saturating_sub(OVERHEAD)
}
