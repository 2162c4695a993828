// Even parity on the line: bit 7 of each byte makes its number of ones even.
ghost use Rattle.std.specs.Prelude.{true, map, ◌≡◌, ◌<◌, ◌≤◌, length};
ghost use Rattle.line.specs.Answer.{Wrote, overlay};
ghost use Rattle.line.specs.Character.{seven};
ghost use Rattle.line.specs.Parity.{parity_on, parity_off, even, with_parity, seven_bits};
ghost use Rattle.line.specs.Test.{all};

use crate::answer::Refusal;
use crate::character::{Class, are};
use crate::test::{Test, every};

// Characters to the line: each with bit 7 set so that its ones are even.
pub fn set_parity(text: &[u8], out: &mut [u8]) -> Result<usize, Refusal>
    ensures { Wrote
        (parity_on text.now (length out.old))
        result out.old out.new }
{
    if out.len() < text.len() {
        return Err(Refusal::Size);
    }
    if !are(text, Class::SevenBit) {
        return Err(Refusal::Parity);
    }
    put_parity(text, out);
    Ok(text.len())
}

// Bytes of the line to characters: each tested for an even number of ones, and bit 7 taken off.
pub fn clear_parity(line: &[u8], out: &mut [u8]) -> Result<usize, Refusal>
    ensures { Wrote
        (parity_off line.now (length out.old))
        result out.old out.new }
{
    if out.len() < line.len() {
        return Err(Refusal::Size);
    }
    if !is_even(line) {
        return Err(Refusal::Parity);
    }
    take_parity(line, out);
    Ok(line.len())
}

// Every byte has an even number of ones.
pub fn is_even(line: &[u8]) -> bool
    ensures { result ≡ all even line.now }
{
    every(line, Even)
}

// A byte with an even number of ones.
#[derive(Clone, Copy)]
struct Even;

impl Test for Even {
    ghost passes = { λ _. even };

    fn is_passed(self, byte: u8) -> bool {
        byte.count_ones() % 2 == 0
    }
}

fn put_parity(text: &[u8], out: &mut [u8])
    requires { (all seven text.now ≡ true) × (length text.now ≤ length out.old) }
    ensures { out.new ≡ overlay (map with_parity text.now) out.old }
{
    for (i, &c) in text.iter().enumerate() {
        out[i] = with_parity(c);
    }
}

fn take_parity(line: &[u8], out: &mut [u8])
    requires { length line.now ≤ length out.old }
    ensures { out.new ≡ overlay (map seven_bits line.now) out.old }
{
    for (i, b) in line.iter().enumerate() {
        out[i] = b % 0x80;
    }
}

// The named form of document 01, by `count_ones`.
fn with_parity(c: u8) -> u8
    requires { c < 0x80 }
    ensures { result ≡ with_parity c }
{
    if u8::count_ones(c) % 2 == 0 {
        c
    } else {
        c + 0x80
    }
}
