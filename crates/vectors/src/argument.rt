// A call in memory: a table of numbers, then the bytes of every word, one word behind the other. The
// number at an index is where the word at that index begins, and the next one where it ends; there is
// room for 31. The letter, the word at 0, begins where the table ends: the number at 0 is that of the
// arguments. A capital letter makes the call of the small one, and cuts into whole fields. A letter with
// bit 7 set makes the call of the one without it, with an entry device that confirms late.
ghost use Rattle.std.specs.Prelude.{◌≡◌, ◌<◌, length};

use device::Confirmation;
use segmentation::Way;

// Where the table ends.
const TABLE: u16 = 64;

// Where the letter stands.
const LETTER: usize = 64;

// Where the number of arguments stands.
pub(crate) const COUNT: usize = 1;

// Bytes as a line writes them: a byte and how often it stands there; the characters that say so, and
// the words that they begin.
#[derive(Clone, Copy)]
struct Run {
    byte: u8,
    count: u16,
    length: u8,
    words: u8,
}

// The word that is being put into memory, and where it ends so far.
#[derive(Clone, Copy)]
struct Place {
    word: u8,
    end: u16,
}

// The letter of the call, as a small one.
pub(crate) fn letter_of(call: &[u8]) -> u8 {
    byte(call, LETTER) % 32 + 96
}

// The way of cutting that the letter names.
// A letter of the calls' file, read once, for another crate's enum: no `TryFrom`.
pub(crate) fn way_of(call: &[u8]) -> Way {
    if byte(call, LETTER) % 128 < b'a' {
        return Way::WholeFields;
    }
    Way::Filled
}

// When an accepted verdict stands, as the letter names it.
// A letter, as above.
pub(crate) fn confirmation_of(call: &[u8]) -> Confirmation {
    if byte(call, LETTER) < 0x80 {
        return Confirmation::Early;
    }
    Confirmation::Late
}

// The text that the call is on: its last argument.
pub(crate) fn text(call: &[u8]) -> &[u8] {
    word(call, byte(call, COUNT))
}

// The number that the word at an index is.
pub(crate) fn number(call: &[u8], index: u8) -> usize
    ensures { result < 65536 }
{
    number_at(word(call, index), 0)
}

// The bytes of the word at an index.
pub(crate) fn word(call: &[u8], index: u8) -> &[u8] {
    let at = index as usize * 2;
    part(call, number_at(call, at), number_at(call, at + 2))
}

// The bytes between two places; all of them where there are no such places.
pub(crate) fn part(memory: &[u8], from: usize, to: usize) -> &[u8] {
    if memory.len() < to {
        return memory;
    }
    if to < from {
        return memory;
    }
    &memory[from..to]
}

// The number in the two bytes at a place, high first.
pub(crate) fn number_at(memory: &[u8], at: usize) -> usize
    requires { at < 65536 }
    ensures { result < 65536 }
{
    usize::from(u16::from_be_bytes([byte(memory, at), byte(memory, at + 1)]))
}

// The byte at a place; 0 behind the end. `call` has the like of one line.
pub(crate) fn byte(memory: &[u8], at: usize) -> u8 {
    memory.get(at).copied().unwrap_or(0)
}

// Puts a line into memory as a call.
pub(crate) fn decode(line: &[u8], memory: &mut [u8])
    requires { 65536 ≡ length memory.old }
{
    let mut place = Place {
        word: 0,
        end: TABLE,
    };
    let mut i = 0;
    // From run to run, by the characters of each: no `for`.
    while i < line.len() {
        let run = run_of(&line[i..]);
        place = put(run, place, memory);
        i += run.length as usize;
    }
}

// Puts the bytes of a run into memory, and into the table where they end. A run may go past the
// end and come round, as no method of slices does.
fn put(run: Run, place: Place, memory: &mut [u8]) -> Place
    requires { 65536 ≡ length memory.old }
{
    let byte = run.byte;
    let word = place.word.wrapping_add(run.words);
    let mut end = place.end;
    for _ in 0..run.count {
        memory[end as usize] = byte;
        end = end.wrapping_add(1);
    }
    let at = word as usize * 2 + 2;
    memory[at..at + 2].copy_from_slice(&end.to_be_bytes());
    memory[COUNT] = word;
    Place { word, end }
}

// The run at the start of the text. A `-` is none; a character that stands alone is itself.
fn run_of(text: &[u8]) -> Run
    ensures { 0 < result.length }
{
    let first = byte(text, 0);
    if first < b'0' {
        return Run {
            byte: 0,
            count: 0,
            length: 1,
            words: (first == b' ') as u8,
        };
    }
    if byte(text, 1) < b'0' {
        return Run {
            byte: first,
            count: 1,
            length: 1,
            words: 0,
        };
    }
    if byte(text, 2) == b'*' {
        return Run {
            byte: pair(text, 0),
            count: u16::from_be_bytes([pair(text, 3), pair(text, 5)]),
            length: 7,
            words: 0,
        };
    }
    Run {
        byte: pair(text, 0),
        count: 1,
        length: 2,
        words: 0,
    }
}

// The byte of the two hex digits at a place.
fn pair(text: &[u8], at: u8) -> u8 {
    digit(byte(text, at as usize)) * 16 + digit(byte(text, at as usize + 1))
}

// The value of a hex digit: a letter has bit 6, and counts from 1.
fn digit(c: u8) -> u8
    ensures { result < 16 }
{
    (c % 16 + c / 64 * 9) % 16
}
