// Whether settings and saved state are in range.
ghost use Rattle.std.specs.Prelude.{◌≡◌};
ghost use Rattle.line.specs.Class.{member};
ghost use Rattle.snpp.specs.Inner.{state_of};
ghost use Rattle.snpp.specs.State.{fits, holds, in_range};
ghost use Rattle.snpp.specs.Step.{settings_in_range};

use crate::state::{Control, Settings, Stage};
use central::range::LEAST_LONGEST;
use line::character::{Class, are};
use line::test::{Is, every};
use line::transaction::MOST_INFORMATION;

// The longest transaction is 3 to 2,000 characters.
pub fn settings_in_range(settings: Settings) -> bool
    ensures { result ≡ settings_in_range settings }
{
    (LEAST_LONGEST <= settings.longest) & (settings.longest <= MOST_INFORMATION)
}

// The start can lead to the state.
pub(crate) fn in_range(control: Control, message: &[u8]) -> bool
    ensures { result ≡ in_range (state_of control message.now) }
{
    holds_text(&control.pager, control.digits, Class::Digit)
        & holds_text(message, control.length, Class::Printable)
        & has_lengths(control.stage, control.digits, control.length)
}

// So many characters of the class at the start of the array, and zeros behind them.
fn holds_text(array: &[u8], length: usize, class: Class) -> bool
    ensures { result ≡ holds (member class) array.now length }
{
    if array.len() < length {
        return false;
    }
    let (text, rest) = array.split_at(length);
    are(text, class) & every(rest, Is { byte: 0 })
}

// A pager ID of so many digits and a message of so many characters may be held at the stage.
// One arm is true and the others test: a match, and no equality.
fn has_lengths(stage: Stage, digits: usize, length: usize) -> bool
    ensures { result ≡ fits stage digits length }
{
    match stage {
        Stage::Open => length == 0,
        Stage::Entered => true,
        Stage::Closed => (digits == 0) & (length == 0),
    }
}
