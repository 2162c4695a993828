// Parity, checksum, blocks and segmentation.
ghost use Rattle.std.specs.Prelude.{◌≡◌, ◌%◌, length};
ghost use Rattle.line.specs.Answer.{copied, map_done};
ghost use Rattle.line.specs.Parity.{parity_off, parity_on};
ghost use Rattle.block.specs.Block.{read_block};
ghost use Rattle.block.specs.Checksum as Checksum;
ghost use Rattle.segmentation.specs.Segmentation.{write_segments};
ghost use Rattle.abi.specs.Answer.{Puts, answer_of};
ghost use Rattle.abi.specs.Settings.{of_way, way_of};
ghost use Rattle.abi.specs.Text.{write_ended};

use crate::answer::Answer;
use crate::way::way_of;
use block::Ending;
use block::checksum::{add, sum_characters};
use block::frame::{inside, read, write};
use line::Refusal;
use line::memory::copy;
use line::parity::{clear_parity, set_parity};
use segmentation::write_segments;

// Characters to the line, with even parity.
#[unsafe(no_mangle)]
pub extern "C" fn tyntolai_set_parity(text: &[u8], out: &mut [u8]) -> Answer
    ensures { Puts (parity_on text.now (length out.old))
        result out.old out.new }
{
    Answer::from(set_parity(text, out))
}

// Bytes of the line to characters, tested for even parity.
#[unsafe(no_mangle)]
pub extern "C" fn tyntolai_clear_parity(line: &[u8], out: &mut [u8]) -> Answer
    ensures { Puts (parity_off line.now (length out.old))
        result out.old out.new }
{
    Answer::from(clear_parity(line, out))
}

// The sum of the 7-bit values, modulo 4,096.
#[unsafe(no_mangle)]
pub extern "C" fn tyntolai_checksum(text: &[u8]) -> u16
    ensures { result ≡ Checksum.checksum text.now }
{
    block::checksum::checksum(text)
}

// The sum with one character more, modulo 4,096.
#[unsafe(no_mangle)]
pub extern "C" fn tyntolai_checksum_add(sum: u16, character: u8) -> u16
    ensures { result ≡ Checksum.added sum character }
{
    add(sum, character)
}

// The three characters that carry a sum, modulo 4,096.
#[unsafe(no_mangle)]
pub extern "C" fn tyntolai_check_characters(sum: u16, out: &mut [u8]) -> Answer
    ensures { Puts (copied (Checksum.check_characters (sum % 4096)) (length out.old))
        result out.old out.new }
{
    let check = sum_characters(sum);
    Answer::from(copy(&check, out))
}

// A block of the information with the ending of this character.
#[unsafe(no_mangle)]
pub extern "C" fn tyntolai_write_block(info: &[u8], ending: u8, out: &mut [u8]) -> Answer
    ensures { Puts (write_ended info.now ending (length out.old))
        result out.old out.new }
{
    match Ending::try_from(ending) {
        Ok(ending) => Answer::from(write(info, ending, out)),
        Err(_) => Answer::from(Refusal::Range),
    }
}

// The length of the information of the block that the text is; it lies right behind STX.
#[unsafe(no_mangle)]
pub extern "C" fn tyntolai_read_block(text: &[u8]) -> Answer
    ensures { result ≡ answer_of (map_done (λ g. length g.info) (read_block text.now)) }
{
    match read(text) {
        Ok(_) => Answer {
            count: inside(text).len(),
            code: 0,
        },
        Err(refusal) => Answer::from(refusal),
    }
}

// All blocks of a transaction, cut in the way of this number, one after the other.
#[unsafe(no_mangle)]
pub extern "C" fn tyntolai_write_segments(way: u8, info: &[u8], out: &mut [u8]) -> Answer
    ensures { Puts (of_way way (write_segments (way_of way) info.now (length out.old)))
        result out.old out.new }
{
    match way_of(way) {
        Ok(way) => Answer::from(write_segments(way, info, out)),
        Err(refusal) => Answer::from(refusal),
    }
}
