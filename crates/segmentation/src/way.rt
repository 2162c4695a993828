// The ways of cutting: how much the next block takes, and what a way cannot cut.
ghost use Rattle.std.specs.Prelude.{◌≡◌, min, length};
ghost use Rattle.segmentation.specs.Segmentation.{complete, cut_by, cuttable, fields_within};

use block::frame::INFORMATION;
use line::transaction::ends_in_cr;

// How a transaction is cut into blocks: a closed list, which C and the saved settings number.
#[derive(Clone, Copy)]
pub enum Way {
    // Each block is filled, and the rest is put in the last.
    Filled,
    // Each block holds as many complete fields as fit, for centrals that cannot join.
    WholeFields,
}

// No field is too long for the way.
// One arm is true and the other tests: a match, and no equality.
pub fn is_cuttable(way: Way, info: &[u8]) -> bool
    ensures { result ≡ cuttable way info.now }
{
    match way {
        Way::Filled => true,
        Way::WholeFields => fields_fit(info),
    }
}

// Every field fits into a block with its CR: where it does, some field ends in the next 250
// characters, or these are the last.
fn fields_fit(info: &[u8]) -> bool
    ensures { result ≡ fields_within 250 info.now }
{
    let mut from = 0;
    // From cut to cut, by what is complete: no `for`.
    while INFORMATION < info.len() - from {
        let rest = &info[from..];
        let n = complete_fields(rest);
        if n == 0 {
            return false;
        }
        from += n;
    }
    true
}

// How many characters of what is left the next block takes.
pub(crate) fn next_length(way: Way, rest: &[u8]) -> usize
    ensures { result ≡ min (length rest.now) (cut_by way rest.now) }
{
    match way {
        Way::Filled => within(rest),
        Way::WholeFields => {
            let n = complete_fields(rest);
            // A field too long: the transaction is refused before it is cut.
            if n == 0 {
                return within(rest);
            }
            n
        }
    }
}

// How many characters the complete fields have that fit into a block: those up to the last CR, and
// nought where there is none, a number as in the definition.
fn complete_fields(rest: &[u8]) -> usize
    ensures { result ≡ min (length rest.now) (complete 250 rest.now) }
{
    for n in (1..=within(rest)).rev() {
        if ends_in_cr(&rest[..n]) {
            return n;
        }
    }
    0
}

// A block's characters, or as many as are left.
fn within(rest: &[u8]) -> usize
    ensures { result ≡ min (length rest.now) 250 }
{
    rest.len().min(INFORMATION)
}
