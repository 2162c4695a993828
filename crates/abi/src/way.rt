// The way of cutting as C numbers it.
ghost use Rattle.std.specs.Prelude.{◌≡◌};
ghost use Rattle.line.specs.Answer.{done, outcome_of};
ghost use Rattle.abi.specs.Settings.{of_way, way_of};

use line::Refusal;
use segmentation::Way;

// The way of a number: 0 filled, 1 whole fields. The numbers are C's alone, and a `TryFrom` for
// segmentation's enum can't stand here.
pub(crate) fn way_of(number: u8) -> Result<Way, Refusal>
    ensures { outcome_of result ≡ of_way number (done (way_of number)) }
{
    match number {
        0 => Ok(Way::Filled),
        1 => Ok(Way::WholeFields),
        _ => Err(Refusal::Range),
    }
}
