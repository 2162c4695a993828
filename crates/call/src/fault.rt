// Line faults: what a fault does to a string.
ghost use Rattle.std.specs.Prelude.{List, ◌≡◌, ℕ, get_or};
ghost use Rattle.line.specs.Parity.{flip_top};
ghost use Rattle.line.specs.Test.{all};
ghost use Rattle.call.specs.Call as Call;
ghost use Rattle.call.specs.Inner.{Arrives, arrives, part_number};

use line::test::{Test, every};

// How many faults there are: 3 of a string times 3 of its answer.
const FAULTS: u8 = 9;

// What becomes of a string on the line.
#[derive(Clone, Copy)]
pub(crate) enum Part {
    Whole,
    Garbled,
    Lost,
}

// Every fault is 0 to 8.
pub(crate) fn are_faults(faults: &[u8]) -> bool
    ensures { result ≡ all Call.fault faults.now }
{
    every(faults, Fault)
}

// A fault is 0 to 8.
#[derive(Clone, Copy)]
struct Fault;

impl Test for Fault {
    ghost passes = { λ _. Call.fault };

    fn is_passed(self, byte: u8) -> bool {
        byte < FAULTS
    }
}

// The fault of a transmission; past the end of the list it is 0. `vectors` has the like of one line.
pub(crate) fn fault_at(faults: &[u8], index: usize) -> u8
    ensures { result ≡ get_or faults.now index 0 }
{
    faults.get(index).copied().unwrap_or(0)
}

// The part of a fault with this number: 0 whole, 1 garbled, 2 lost.
impl From<u8> for Part {
    ghost from_gives = { λ number part. (bytes : List ℕ) → arrives (part_number part) bytes ≡ arrives number bytes };

    fn from(number: u8) -> Part {
        match number {
            0 => Part::Whole,
            1 => Part::Garbled,
            _ => Part::Lost,
        }
    }
}

// What arrives of the string: so many bytes at its start.
pub(crate) fn arrive(part: Part, string: &mut [u8]) -> usize
    ensures { Arrives (part_number part) string.old result string.new }
{
    match part {
        Part::Whole => string.len(),
        Part::Garbled => {
            if let Some(first) = string.first_mut() {
                *first = flip(*first);
            }
            string.len()
        }
        Part::Lost => 0,
    }
}

// A byte with bit 7 flipped, by the library's method; the definition has a name too.
fn flip(b: u8) -> u8
    ensures { result ≡ flip_top b }
{
    b.wrapping_add(0x80)
}
