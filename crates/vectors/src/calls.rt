// The calls, by their letters.
ghost use Rattle.std.specs.Prelude.{◌≡◌, ◌<◌, length};

use crate::answer::{
    print_bytes, print_count, print_counted, print_digest, print_number, print_refusal, reply_name,
};
use crate::argument::{COUNT, byte, letter_of, number, part, text, way_of, word};
use crate::driver::{print_driver, print_settled, transactions};
use crate::ends::{PAGERS, list_pagers, print_conversation, print_play};
use crate::framing::{ROOM, print_framing};
use crate::gateway::{OUTPUT, SIZE, print_gateway};
use crate::names;
use crate::names::{COMMA, NOTHING, SPACE, say};
use crate::remarks::print_remarks;
use crate::runs::print_run;
use block::Ending;
use block::checksum::{add, check_characters, checksum, sum_characters};
use block::frame::information;
use device::Verdict;
use journal::Place;
use journal::buffer::BUFFER;
use journal::cursor::RECORDS;
use journal::held::step_at;
use journal::record::{newest, oldest};
use line::Refusal;
use line::memory::copy;
use reassembly::{Reassembly, reassemble};
use reply::remarks::read_remarks;
use segmentation::{Way, block_count, write_segment, write_segments};
use std::io;
use std::io::Write;

// What an output holds before a step.
const FILLER: u8 = 0xA5;

// What a call lends: memory of a size, with the bytes of a word at its start, and an output of a
// size, filled with a byte.
#[derive(Clone, Copy)]
struct Loan {
    size: usize,
    word: u8,
    room: usize,
    filler: u8,
}

// What comes of a call.
pub(crate) fn print_answer<W: Write>(to: &mut W, call: &[u8]) -> io::Result<()> {
    let text = text(call);
    match letter_of(call) {
        b'c' => print_checksum(to, text),
        b'b' => print_sums(to, call),
        b'r' => print_block(to, text),
        b'y' => say(to, reply_name(reply::read(text))),
        b'h' => print_remarks(to, NOTHING, read_remarks(text)),
        b'j' => print_reassembly(to, call),
        b'k' => print_count(to, journal::record::check(text)),
        b'v' => print_walk(to, text),
        b'n' => print_bytes(to, NOTHING, newest(text, number(call, 1))),
        b'o' => print_bytes(to, NOTHING, oldest(text, number(call, 1))),
        _ => lend(to, call),
    }
}

// Lends the memory of a call; its fourth argument may be a pager list.
fn lend<W: Write>(to: &mut W, call: &[u8]) -> io::Result<()> {
    let loan = loan_of(call);
    let size = loan.size;
    let room = loan.room;
    let mut memory = filled(0);
    let mut out = filled(loan.filler);
    let _ = copy(word(call, loan.word), &mut memory);
    let numbers = word(call, 4);
    let pagers = list_pagers(numbers);
    let n = numbers.len() / 4 % (PAGERS + 1);
    print_lent(
        to,
        call,
        &pagers[0..n],
        &mut memory[0..size],
        &mut out[0..room],
    )
}

// So many bytes of one kind. The `ensures` gives only the length, which lending the array needs.
pub(crate) fn filled(byte: u8) -> [u8; 65536]
    ensures { 65536 ≡ length result }
{
    [byte; 65536]
}

// What the call lends.
fn loan_of(call: &[u8]) -> Loan
    ensures { (result.size < 65536) × (result.room < 65536) }
{
    match letter_of(call) {
        b'd' => Loan {
            size: BUFFER,
            word: 5,
            room: 256,
            filler: FILLER,
        },
        b'f' => Loan {
            size: number(call, 11),
            word: 5,
            room: number(call, 12),
            filler: FILLER,
        },
        b'u' => Loan {
            size: number(call, 8),
            word: 5,
            room: number(call, 10),
            filler: 0,
        },
        b'z' => Loan {
            size: number(call, SIZE),
            word: 5,
            room: number(call, OUTPUT),
            filler: FILLER,
        },
        b'l' => Loan {
            size: 512,
            word: 0,
            room: transactions(call),
            filler: u8::from(Verdict::Unsent),
        },
        b'e' => output_of(512),
        b'g' | b'x' => output_of(number(call, 8)),
        b'm' => output_of(number(call, ROOM)),
        b'i' => memory_of(text(call).len() % 65536),
        _ => memory_of(number(call, 1)),
    }
}

// Memory of a size, with the second argument at its start, and no output.
fn memory_of(size: usize) -> Loan
    ensures { (result.size ≡ size) × (result.room ≡ 0) }
{
    Loan {
        size,
        word: 2,
        room: 0,
        filler: 0,
    }
}

// An output of a size, and no memory.
fn output_of(room: usize) -> Loan
    ensures { (result.size ≡ 0) × (result.room ≡ room) }
{
    Loan {
        size: 0,
        word: 0,
        room,
        filler: FILLER,
    }
}

// What comes of a call in the memory that it lends.
fn print_lent<W: Write>(
    to: &mut W,
    call: &[u8],
    pagers: &[u32],
    memory: &mut [u8],
    out: &mut [u8],
) -> io::Result<()> {
    match letter_of(call) {
        b'd' | b'f' => print_conversation(to, call, pagers, memory, out),
        b'u' => print_run(to, call, pagers, memory, out),
        b'e' | b'g' | b'x' => print_play(to, call, out),
        b'l' => print_driver(to, call, memory, out),
        b'm' => print_framing(to, call, out),
        b'z' => print_gateway(to, call, pagers, memory, out),
        b'i' => print_settled(to, call, memory),
        _ => print_output(to, call, memory),
    }
}

// What a writer wrote into the memory, or why nothing.
fn print_output<W: Write>(to: &mut W, call: &[u8], memory: &mut [u8]) -> io::Result<()> {
    let written = write(call, text(call), memory);
    print_outcome(to, call, written, memory)
}

// The bytes that were put out at the start of the memory, or why none.
pub(crate) fn print_outcome<W: Write>(
    to: &mut W,
    call: &[u8],
    outcome: Result<usize, Refusal>,
    memory: &[u8],
) -> io::Result<()> {
    match outcome {
        Ok(n) => print_written(to, call, part(memory, 0, n)),
        Err(refusal) => print_refusal(to, refusal),
    }
}

// The call of a writer.
fn write(call: &[u8], text: &[u8], memory: &mut [u8]) -> Result<usize, Refusal> {
    match letter_of(call) {
        b'p' => line::parity::set_parity(text, memory),
        b'q' => line::parity::clear_parity(text, memory),
        b'w' => block::frame::write(text, ending_of(call), memory),
        b's' => write_segments(way_of(call), text, memory),
        b't' => write_segment(way_of(call), text, number(call, 2), memory),
        _ => append::append(memory, word(call, 2).len(), text),
    }
}

// The number of blocks before all blocks of a transaction, a journal by its digest, what an end of
// the line puts out without its length, and not at all to a driver.
fn print_written<W: Write>(to: &mut W, call: &[u8], written: &[u8]) -> io::Result<()> {
    match letter_of(call) {
        b'd' | b'e' | b'f' | b'g' => print_bytes(to, NOTHING, written),
        b'l' => Ok(()),
        b's' => {
            print_number(to, NOTHING, block_count(way_of(call), text(call)))?;
            print_blocks(to, names::COLON, way_of(call), written)
        }
        b't' => print_blocks(to, NOTHING, way_of(call), written),
        b'a' => print_digest(to, NOTHING, written),
        _ => print_counted(to, NOTHING, written),
    }
}

// Blocks: of whole fields by their digest, filled ones byte for byte.
fn print_blocks<W: Write>(to: &mut W, before: &str, way: Way, blocks: &[u8]) -> io::Result<()> {
    match way {
        Way::WholeFields => print_digest(to, before, blocks),
        Way::Filled => print_counted(to, before, blocks),
    }
}

// The checksum, and the characters that carry it.
fn print_checksum<W: Write>(to: &mut W, text: &[u8]) -> io::Result<()> {
    print_number(to, NOTHING, checksum(text) as usize)?;
    let check = check_characters(text);
    print_bytes(to, SPACE, &check)
}

// The sum that the first argument is, with the pieces behind it: the sum after each, and the
// characters that carry the last.
fn print_sums<W: Write>(to: &mut W, call: &[u8]) -> io::Result<()> {
    let count = byte(call, COUNT);
    let mut sum = number(call, 1) as u16;
    for index in 2..=count {
        sum = add_piece(sum, word(call, index));
        print_number(to, NOTHING, sum as usize)?;
        say(to, SPACE)?;
    }
    let check = sum_characters(sum);
    print_bytes(to, NOTHING, &check)
}

// The sum with a piece more, a character at a time, as a caller would: not by `checksum`, which it is compared with.
fn add_piece(sum: u16, piece: &[u8]) -> u16 {
    let mut sum = sum;
    for &character in piece {
        sum = add(sum, character);
    }
    sum
}

// The ending and the information of the block that the text is.
fn print_block<W: Write>(to: &mut W, text: &[u8]) -> io::Result<()> {
    match block::frame::read(text) {
        Ok(ending) => print_counted(to, ending_name(ending), information(text)),
        Err(refusal) => print_refusal(to, refusal),
    }
}

// A word of the calls' file, which block does not know; a `Display` for block's enum can't stand here.
fn ending_name(ending: Ending) -> &'static str {
    match ending {
        Ending::Etx => names::ETX,
        Ending::Etb => names::ETB,
        Ending::Us => names::US,
    }
}

// The ending that the second argument is: a letter of that file, as `ending_name`; nor can a `From`.
fn ending_of(call: &[u8]) -> Ending {
    match byte(word(call, 2), 0) {
        b'x' => Ending::Etx,
        b'b' => Ending::Etb,
        _ => Ending::Us,
    }
}

// The blocks that the arguments are, joined one after the other: what comes of each, and what is
// held at the end.
fn print_reassembly<W: Write>(to: &mut W, call: &[u8]) -> io::Result<()> {
    let mut memory = [0; 2000];
    let count = byte(call, COUNT);
    let mut state = reassembly::start();
    for index in 1..=count {
        if 1 < index {
            say(to, COMMA)?;
        }
        state = join(to, word(call, index), state, &mut memory)?;
    }
    print_bytes(to, SPACE, part(&memory, 0, state.length))
}

// One block more; a block that is refused changes nothing.
fn join<W: Write>(
    to: &mut W,
    block: &[u8],
    state: Reassembly,
    memory: &mut [u8],
) -> io::Result<Reassembly> {
    match reassemble(state, block, memory) {
        Ok(next) => {
            print_number(to, NOTHING, next.length)?;
            say(
                to,
                if next.complete {
                    names::WHOLE
                } else {
                    names::PART
                },
            )?;
            Ok(next)
        }
        Err(refusal) => {
            print_refusal(to, refusal)?;
            Ok(state)
        }
    }
}

// The records of the journal that the text is, from the newest back, as the cursor that holds it
// meets them; and how the walk ends.
fn print_walk<W: Write>(to: &mut W, text: &[u8]) -> io::Result<()> {
    for index in 0..=RECORDS {
        if !print_place(to, text, step_at(text, index))? {
            return Ok(());
        }
    }
    Ok(())
}

// The record that a walk stands at, or why it has ended; and whether it goes on, which is
// asked once: no plainer as an enum.
fn print_place<W: Write>(
    to: &mut W,
    journal: &[u8],
    at: Result<Option<Place>, Refusal>,
) -> io::Result<bool> {
    match at {
        Ok(Some(place)) => {
            let end = place.start.wrapping_add(place.length);
            print_bytes(to, NOTHING, part(journal, place.start, end))?;
            say(to, SPACE)?;
            Ok(true)
        }
        Ok(None) => {
            say(to, names::END)?;
            Ok(false)
        }
        Err(refusal) => {
            print_refusal(to, refusal)?;
            Ok(false)
        }
    }
}
