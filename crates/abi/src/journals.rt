// Journals: check and append.
ghost use Rattle.std.specs.Prelude.{◌≡◌};
ghost use Rattle.std.proofs.Math.ListN as ListN;
ghost use Rattle.line.specs.Answer.{map_done};
ghost use Rattle.journal.specs.Walk.{decode};
ghost use Rattle.append.specs.Append.{append_to};
ghost use Rattle.abi.specs.Answer.{Puts, answer_of};

use crate::answer::Answer;
use append::append;
use journal::record::check;

// How many records the journal has.
#[unsafe(no_mangle)]
pub extern "C" fn tyntolai_check_journal(journal: &[u8]) -> Answer
    ensures { result ≡ answer_of (map_done ListN.length (decode journal.now)) }
{
    Answer::from(check(journal))
}

// One transaction more in the journal of this length at the start of the buffer.
#[unsafe(no_mangle)]
pub extern "C" fn tyntolai_append(buffer: &mut [u8], length: usize, info: &[u8]) -> Answer
    ensures { Puts (append_to buffer.old length info.now)
        result buffer.old buffer.new }
{
    Answer::from(append(buffer, length, info))
}
