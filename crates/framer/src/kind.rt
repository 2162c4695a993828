// Bytes by what they are to the framer.
ghost use Rattle.std.specs.Prelude.{◌≡◌};
ghost use Rattle.block.specs.Block.{ends};
ghost use Rattle.framer.specs.Kind.{member};

use block::Ending;
use line::character::{EOT, STX};
use line::test::Test;

#[derive(Clone, Copy)]
pub(crate) enum Kind {
    // STX or EOT: a string begins.
    Opening,
    // ETX, ETB or US.
    Ending,
    // All but these.
    Inner,
}

// A character is judged on the low seven bits.
impl Test for Kind {
    ghost passes = { member };

    fn is_passed(self, b: u8) -> bool {
        match self {
            Kind::Opening => (b % 0x80 == STX) | (b % 0x80 == EOT),
            Kind::Ending => is_ending(b % 0x80),
            Kind::Inner => !is_ending(b % 0x80),
        }
    }
}

fn is_ending(c: u8) -> bool
    ensures { result ≡ ends c }
{
    Ending::try_from(c).is_ok()
}
