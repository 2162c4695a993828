// One block: written from information and an ending, and read back.
ghost use Rattle.std.specs.Prelude.{true, ◌≡◌, ◌+◌, ◌≤◌, length};
ghost use Rattle.line.specs.Answer.{Wrote, map_done, outcome_of, output, overlay};
ghost use Rattle.line.specs.Test.{all};
ghost use Rattle.block.specs.Block.{Handed, Within, agrees, block_of, check_in, checking, ending_at, ending_character, ending_in, ends, framed};
ghost use Rattle.block.specs.Block.{read_block, right, summed, summing, write_block};

use crate::checksum::check_characters;
use line::Refusal;
use line::character::{CR, Class, ETB, ETX, STX, US, are};
use line::transaction::ends_in_cr;

// How a block ends. `u8::from` gives its character.
#[derive(Clone, Copy, Debug, PartialEq, Eq)]
pub enum Ending {
    // The transaction ends here.
    Etx,
    // It goes on, and the last field here is complete.
    Etb,
    // It goes on, and the last field here is broken.
    Us,
}

impl From<Ending> for u8 {
    ghost from_gives = { λ ending character. character ≡ ending_character ending };

    fn from(ending: Ending) -> u8 {
        match ending {
            Ending::Etx => ETX,
            Ending::Etb => ETB,
            Ending::Us => US,
        }
    }
}

// A character as the ending that it is: `Frame` where it is none.
impl TryFrom<u8> for Ending {
    type Error = Refusal;

    ghost try_from_gives = { λ character result. outcome_of result ≡ ending_in character };

    fn try_from(character: u8) -> Result<Ending, Refusal> {
        match character {
            ETX => Ok(Ending::Etx),
            ETB => Ok(Ending::Etb),
            US => Ok(Ending::Us),
            _ => Err(Refusal::Frame),
        }
    }
}

// The most characters of information in a block.
pub const INFORMATION: usize = 250;

// The characters of a block besides its information.
pub const OVERHEAD: usize = 6;

// A block of the information with the ending.
pub fn write(info: &[u8], ending: Ending, out: &mut [u8]) -> Result<usize, Refusal>
    ensures { Wrote
        (write_block info.now ending (length out.old))
        result out.old out.new }
{
    let n = info.len();
    if out.len() < n + OVERHEAD {
        return Err(Refusal::Size);
    }
    if INFORMATION < n {
        return Err(Refusal::Length);
    }
    if is_right(info, ending) {
        put_block(info, ending, out);
        return Ok(n + OVERHEAD);
    }
    if are(info, Class::SevenBit) {
        return Err(Refusal::Information);
    }
    Err(Refusal::Parity)
}

// The ending of the block that the string is, with its parity taken off. `Information` is a block
// in a right frame whose information is wrong; the other refusals are no block at all.
pub fn read(s: &[u8]) -> Result<Ending, Refusal>
    ensures { outcome_of result ≡ map_done (λ g. g.ending) (read_block s.now) }
{
    let n = s.len();
    if n < OVERHEAD {
        return Err(Refusal::Length);
    }
    if INFORMATION + OVERHEAD < n {
        return Err(Refusal::Length);
    }
    if !are(s, Class::SevenBit) {
        return Err(Refusal::Parity);
    }
    let ending = Ending::try_from(s[n - 5])?;
    if !is_framed(s) {
        return Err(Refusal::Frame);
    }
    if !is_summed(s) {
        return Err(Refusal::Checksum);
    }
    if is_right(&s[1..n - 5], ending) {
        Ok(ending)
    } else {
        Err(Refusal::Information)
    }
}

// The information of the block that the string is: the very part of it that follows STX. Nothing
// where it is refused.
// An empty part and no Option: `Handed` says which part it is.
pub fn information(s: &[u8]) -> &[u8]
    ensures { Handed (read_block s.now) s.entry.ref_ptr result.now result.ref_ptr }
{
    let Ok(_) = read(s) else {
        return &s[..0];
    };
    inside(s)
}

// The part of the string between STX and the last five: of a string that `read` has found to be a
// block, its information. Nothing of a string shorter than any block.
pub fn inside(s: &[u8]) -> &[u8]
    ensures { Within s.now s.entry.ref_ptr result.now result.ref_ptr }
{
    let n = s.len();
    if n < OVERHEAD {
        return &s[..0];
    }
    &s[1..n - 5]
}

// The block, over the start of the output.
fn put_block(info: &[u8], ending: Ending, out: &mut [u8])
    requires { length info.now + 6 ≤ length out.old }
    ensures { out.new ≡ overlay (block_of info.now ending) out.old }
{
    let n = info.len() + 2;
    put_summed(info, ending, out);
    let check = check_characters(&out[..n]);
    out[n..n + 3].copy_from_slice(&check);
    out[n + 3] = CR;
}

// What the check is of: STX through the ending.
fn put_summed(info: &[u8], ending: Ending, out: &mut [u8])
    requires { length info.now + 2 ≤ length out.old }
    ensures { out.new ≡ overlay (summed info.now ending) out.old }
{
    let n = info.len();
    out[0] = STX;
    let _ = line::memory::copy(info, &mut out[1..]);
    out[n + 1] = u8::from(ending);
}

// The information's characters, and the rule of the ending.
fn is_right(info: &[u8], ending: Ending) -> bool
    ensures { result ≡ right info.now ending }
{
    are(info, Class::Textual) & is_agreed(info, ending)
}

// The rule of the ending.
fn is_agreed(info: &[u8], ending: Ending) -> bool
    ensures { result ≡ agrees ending info.now }
{
    let ended = ends_in_cr(info);
    match ending {
        Ending::Etx => ended,
        Ending::Etb => ended,
        Ending::Us => (1 <= info.len()) & !ended,
    }
}

// The frame of a string that has an ending in its place. This and the two below take the string whole, as the definitions do.
fn is_framed(s: &[u8]) -> bool
    requires { (6 ≤ length s.now) × (ends (ending_at s.now) ≡ true) }
    ensures { result ≡ framed s.now }
{
    let n = s.len();
    (s[0] == STX) & has_check(s) & (s[n - 1] == CR)
}

// The three characters before the last can carry a checksum.
fn has_check(s: &[u8]) -> bool
    requires { 6 ≤ length s.now }
    ensures { result ≡ all checking (check_in s.now) }
{
    let n = s.len();
    is_check(s[n - 4]) & (is_check(s[n - 3]) & is_check(s[n - 2]))
}

// The check characters are those of what stands before them.
fn is_summed(s: &[u8]) -> bool
    requires { 6 ≤ length s.now }
    ensures { result ≡ summing s.now }
{
    let n = s.len();
    let check = check_characters(&s[..n - 4]);
    (s[n - 4] == check[0]) & ((s[n - 3] == check[1]) & (s[n - 2] == check[2]))
}

// Both ends are asked, as in every test of bytes. One line, as `in_span` of `line` is, which is not handed out.
fn is_check(c: u8) -> bool
    ensures { result ≡ checking c }
{
    (0x30 <= c) & (c <= 0x3F)
}
