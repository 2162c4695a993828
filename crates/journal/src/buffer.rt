// The buffer that a journal grows in, with the journal at its start.
ghost use Rattle.std.specs.Prelude.{◌≡◌};
ghost use Rattle.std.proofs.Math.ListN as ListN;
ghost use Rattle.line.specs.Answer.{done, map_done, outcome_of};
ghost use Rattle.journal.specs.Storage.{decode_in, in_buffer, is_buffer, trailer_in};

use crate::cursor::{Position, open};
use crate::record::check;
use line::Refusal;

// Its size.
pub const BUFFER: usize = 32004;

// The buffer has that size.
#[tactic(auto, unfolding(crate::specs::Storage::is_buffer))]
pub fn is_buffer(buffer: &[u8]) -> bool
    ensures { result ≡ is_buffer buffer.now }
{
    buffer.len() == BUFFER
}

// How many records a journal of this length at the start of the buffer has.
pub fn check_in(buffer: &[u8], length: usize) -> Result<usize, Refusal>
    ensures { outcome_of result ≡ map_done ListN.length (decode_in buffer.now length) }
{
    check(journal_in(buffer, length)?)
}

// The position behind the newest record, from the trailer of a journal of this length at the start
// of the buffer. No record is looked at.
pub fn open_in(buffer: &[u8], length: usize) -> Result<Position, Refusal>
    ensures { outcome_of result ≡ trailer_in buffer.now length }
{
    open(journal_in(buffer, length)?)
}

// The journal of this length at the start of the buffer.
fn journal_in(buffer: &[u8], length: usize) -> Result<&[u8], Refusal>
    ensures { map_done (λ journal. journal.now) (outcome_of result) ≡ in_buffer (λ bytes. done bytes) buffer.now length }
{
    if !is_buffer(buffer) {
        return Err(Refusal::Size);
    }
    buffer.get(..length).ok_or(Refusal::Journal)
}
