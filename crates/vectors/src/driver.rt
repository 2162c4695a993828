// The call on a driver of the entry device, which keeps the verdicts and settles them as each step
// says; and the one on settling alone.
ghost use Rattle.std.specs.Prelude.{◌<◌};

use crate::answer::print_bytes;
use crate::argument::{COUNT, byte, word};
use crate::ends::{JOB, begin, device_settings};
use crate::names;
use crate::names::{NOTHING, SPACE, say};
use device::settling::settle;
use device::{Given, Standing};
use journal::record::check;
use std::io;
use std::io::Write;

// How many transactions the job has: so many verdicts the driver keeps.
pub(crate) fn transactions(call: &[u8]) -> usize
    ensures { result < 65536 }
{
    check(word(call, JOB)).unwrap_or(0) % 65536
}

// How the accepted verdicts stand behind each reply, or why the entry device does not start; and all
// verdicts at the end.
pub(crate) fn print_driver<W: Write>(
    to: &mut W,
    call: &[u8],
    string: &mut [u8],
    verdicts: &mut [u8],
) -> io::Result<()> {
    let count = byte(call, COUNT);
    let begun = begin(to, call, string)?;
    let mut state = begun.state;
    for index in begun.before..count {
        state = drive(to, call, word(call, index + 1), state, string, verdicts)?;
    }
    print_bytes(to, SPACE, verdicts)
}

// The step of the entry device over a reply: the verdict that it gives is noted, and all are settled.
fn drive<W: Write>(
    to: &mut W,
    call: &[u8],
    reply: &[u8],
    state: device::State,
    string: &mut [u8],
    verdicts: &mut [u8],
) -> io::Result<device::State> {
    let settings = device_settings(call, 1);
    let stepped = device::step::step(state, settings, word(call, JOB), reply, string);
    let standing = stepped.standing;
    note(stepped.given, verdicts);
    settle(standing, verdicts);
    say(to, standing_name(standing))?;
    Ok(stepped.state)
}

// A verdict that is given is put in its place. `call` has the same; a second caller leans on nothing of it.
fn note(given: Option<Given>, verdicts: &mut [u8]) {
    let Some(given) = given else {
        return;
    };
    if given.transaction < verdicts.len() {
        verdicts[given.transaction] = u8::from(given.verdict);
    }
}

// A word of the calls' file, which device does not know; a `Display` for device's enum can't stand here.
fn standing_name(standing: Standing) -> &'static str {
    match standing {
        Standing::Open => names::OPEN,
        Standing::Confirmed => names::CONFIRMED,
        Standing::InDoubt => names::IN_DOUBT,
    }
}

// The bytes in the memory, settled as the first argument says.
pub(crate) fn print_settled<W: Write>(
    to: &mut W,
    call: &[u8],
    memory: &mut [u8],
) -> io::Result<()> {
    settle(standing_of(byte(word(call, 1), 0)), memory);
    print_bytes(to, NOTHING, memory)
}

// A letter of that file, as `standing_name`; nor can a `From`.
fn standing_of(letter: u8) -> Standing {
    match letter {
        b'o' => Standing::Open,
        b'c' => Standing::Confirmed,
        _ => Standing::InDoubt,
    }
}
