// One transmission: a string of the device over the line, and the central's answer. What is lent goes
// apart: of a struct that holds a `&mut` a contract names what was left by place and not by name.
ghost use Rattle.std.specs.Prelude.{List, map, ◌≡◌, length};
ghost use Rattle.central.specs.Lent.{state_of, stepped_in, whole_of};
ghost use Rattle.central.specs.Step as CentralStep;
ghost use Rattle.device.specs.Reaction.{verdict_number};
ghost use Rattle.device.specs.Step as DeviceStep;
ghost use Rattle.device.specs.declared.state.Verdict as Verdicts;
ghost use Rattle.demand.specs.Run.{noted};
ghost use Rattle.call.specs.Inner.{Exchanges, Underway, arrives, part_number, setup_of};

use crate::fault::{Part, arrive};
use crate::setup::Setup;
use central::lent::step as step_central;
use central::step::ANSWER;
use device::step::step as step_device;
use device::{Given, Standing};
use line::answer::count;

// Both ends between two transmissions, the central's unfinished information aside; the length of the
// string that the device has put out; and how it says that the accepted verdicts stand.
#[derive(Clone, Copy)]
pub struct Saved {
    pub device: device::State,
    pub central: central::Control,
    pub count: usize,
    pub standing: Standing,
}

// The string at the start of the memory is sent, and answered: both ends behind it. The fault is 3
// times the string's part plus the answer's, a number as `run` is given it. Neither end refuses its step.
pub(crate) fn exchange(
    setup: Setup<'_>,
    ends: Saved,
    fault: u8,
    journal: &mut [u8],
    pending: &mut [u8],
    memory: &mut [u8],
    verdicts: &mut [u8],
) -> Saved
    requires { Underway (setup_of setup) ends
        journal.old pending.old memory.old verdicts.old }
    ensures { Exchanges (setup_of setup.entry) fault ends result
        journal.old journal.new
        pending.old pending.new
        memory.old memory.new
        verdicts.old verdicts.new }
{
    let mut answer = [0u8; ANSWER];
    let reacted = hear(
        setup,
        ends.central,
        journal,
        pending,
        Part::from(fault / 3),
        &mut memory[..ends.count],
        &mut answer,
    );
    let moved = read(
        setup,
        ends.device,
        Part::from(fault % 3),
        &mut answer[..count(reacted.outcome)],
        memory,
    );
    note(moved.given, verdicts);
    Saved {
        device: moved.state,
        central: reacted.control,
        count: count(moved.outcome),
        standing: moved.standing,
    }
}

// The central's step over what arrives of the string.
fn hear(
    setup: Setup<'_>,
    control: central::Control,
    journal: &mut [u8],
    pending: &mut [u8],
    part: Part,
    string: &mut [u8],
    answer: &mut [u8],
) -> central::Moved
    ensures { CentralStep.Steps
        (stepped_in control pending.old setup.entry.central setup.entry.pagers.now journal.old
        (arrives (part_number part) string.old) (length answer.old))
        (state_of control pending.old) (whole_of result pending.new)
        journal.old journal.new
        answer.old answer.new }
{
    let heard = arrive(part, string);
    step_central(
        control,
        setup.central,
        setup.pagers,
        journal,
        pending,
        &string[..heard],
        answer,
    )
}

// The device's step over what arrives of the answer: it puts its next string in the memory.
fn read(
    setup: Setup<'_>,
    state: device::State,
    part: Part,
    answer: &mut [u8],
    memory: &mut [u8],
) -> device::Stepped
    ensures { DeviceStep.Steps
        (DeviceStep.stepped state setup.entry.device setup.entry.job.now
        (arrives (part_number part) answer.old) (length memory.old))
        state.step result
        memory.old memory.new }
{
    let heard = arrive(part, answer);
    step_device(state, setup.device, setup.job, &answer[..heard], memory)
}

// A verdict that is given is put in its place, as its number. `vectors` has its own, to compare with.
fn note(given: Option<Given>, verdicts: &mut [u8])
    ensures { (vs : List Verdicts.Verdict) →
        verdicts.old ≡ map verdict_number vs → verdicts.new ≡ map verdict_number (noted given vs) }
{
    let Some(given) = given else {
        return;
    };
    if given.transaction < verdicts.len() {
        verdicts[given.transaction] = u8::from(given.verdict);
    }
}
