// When accepted verdicts stand and how, as C numbers it; and a verdict buffer settled.
ghost use Rattle.std.specs.Prelude.{◌≡◌, ltb, if◌then◌else◌};
ghost use Rattle.line.specs.Answer.{done, outcome_of, refused};
ghost use Rattle.abi.specs.Answer.{Puts};
ghost use Rattle.abi.specs.Settings.{confirmation_of};
ghost use Rattle.abi.specs.Settling.{settled_as, standing_for, standing_number};

use crate::answer::Answer;
use device::settling::settle;
use device::{Confirmation, Standing};
use line::Refusal;

// Settles a verdict buffer by the number of the standing that a step of the device told.
#[unsafe(no_mangle)]
pub extern "C" fn tyntolai_settle(standing: u8, verdicts: &mut [u8]) -> Answer
    ensures { Puts (settled_as standing verdicts.old)
        result verdicts.old verdicts.new }
{
    match standing_of(standing) {
        Ok(standing) => {
            settle(standing, verdicts);
            Answer {
                count: verdicts.len(),
                code: 0,
            }
        }
        Err(refusal) => Answer::from(refusal),
    }
}

// The numbers are C's alone, and a `From` for device's enums can't stand here.
// The confirmation of a number: 0 early, 1 late.
pub(crate) fn confirmation_of(number: u8) -> Result<Confirmation, Refusal>
    ensures { outcome_of result ≡ (if ltb 1 number then refused 9 else done (confirmation_of number)) }
{
    match number {
        0 => Ok(Confirmation::Early),
        1 => Ok(Confirmation::Late),
        _ => Err(Refusal::Range),
    }
}

// The standing of a number: 0 open, 1 confirmed, 2 in doubt.
fn standing_of(number: u8) -> Result<Standing, Refusal>
    ensures { outcome_of result ≡ (if ltb 2 number then refused 9 else done (standing_for number)) }
{
    match number {
        0 => Ok(Standing::Open),
        1 => Ok(Standing::Confirmed),
        2 => Ok(Standing::InDoubt),
        _ => Err(Refusal::Range),
    }
}

pub(crate) fn standing_number(standing: Standing) -> u8
    ensures { result ≡ standing_number standing }
{
    match standing {
        Standing::Open => 0,
        Standing::Confirmed => 1,
        Standing::InDoubt => 2,
    }
}
