// The central's steps over unfinished information that lies in lent memory: it is handed over without a copy.
// These and the steps in step.rt are one step, in two ways of keeping the state.
ghost use Rattle.std.specs.Prelude.{◌≡◌};
ghost use Rattle.std.proofs.Math.ListN as ListN;
ghost use Rattle.line.specs.Answer.{map_done, outcome_of};
ghost use Rattle.central.specs.Hearing.{heard};
ghost use Rattle.central.specs.Inner.{Ready, Stores, reacts_in};
ghost use Rattle.central.specs.Lent.{dropped_in, refusing, start_in, state_of, stepped_in, whole_of};
ghost use Rattle.central.specs.Step.{Drops, Steps, tested};

use crate::answer::{Answer, put_answer};
use crate::range::{in_range, is_kept};
use crate::reaction::{Reacted, Setup, react_to, stay, unrecognized};
use crate::state::{Control, Moved, Settings, Stage};
use crate::step::{ANSWER, STRING};
use journal::buffer::check_in;
use line::Refusal;
use line::parity::clear_parity;
use line::transaction::MOST_INFORMATION;

// The state before the first call, over a journal of this length; the lent memory may hold anything.
pub fn start(journal: usize) -> Control
    ensures { result ≡ start_in journal }
{
    Control {
        stage: Stage::Idle,
        failures: 0,
        length: 0,
        journal,
    }
}

// The line was dropped: the unfinished transaction is gone, and the central waits for a call.
// Nothing is put out.
pub fn hang_up(control: Control, settings: Settings, pending: &[u8]) -> Moved
    ensures { Drops (dropped_in control pending.now settings)
        (state_of control pending.now) (whole_of result pending.now) }
{
    if pending.len() != MOST_INFORMATION || !is_kept(settings, control, pending) {
        return refuse(control, Refusal::Range);
    }
    Moved {
        outcome: Ok(0),
        control: start(control.journal),
    }
}

// What the central does with a string as it came off the line; the empty string where nothing came.
// The memory of the unfinished information has 2,000 bytes, or the state is out of range.
pub fn step(
    control: Control,
    settings: Settings,
    pagers: &[u32],
    journal: &mut [u8],
    pending: &mut [u8],
    string: &[u8],
    out: &mut [u8],
) -> Moved
    ensures { Steps
        (stepped_in control pending.old settings pagers.now journal.old
        string.now (ListN.length out.old))
        (state_of control pending.old) (whole_of result pending.new)
        journal.old journal.new out.old out.new }
{
    if pending.len() != MOST_INFORMATION {
        return refuse(control, Refusal::Range);
    }
    let setup = Setup { settings, pagers };
    if let Err(refusal) = test(control, setup, journal, pending, out.len()) {
        return refuse(control, refusal);
    }
    let reacted = react(control, setup, journal, pending, string);
    Moved {
        outcome: put_answer(reacted.answer, out),
        control: reacted.control,
    }
}

// A refusal leaves the state.
fn refuse(control: Control, refusal: Refusal) -> Moved
    ensures { result ≡ refusing control refusal }
{
    Moved {
        outcome: Err(refusal),
        control,
    }
}

// How many transactions the journal has, or why the step is refused.
fn test(
    control: Control,
    setup: Setup,
    journal: &[u8],
    pending: &[u8],
    room: usize,
) -> Result<usize, Refusal>
    requires { ListN.length pending.now ≡ 2000 }
    ensures { outcome_of result ≡
        map_done ListN.length
        (tested (state_of control pending.now) setup.entry.settings setup.entry.pagers.now journal.now room) }
{
    if !in_range(setup.settings, setup.pagers, control, pending) {
        return Err(Refusal::Range);
    }
    if room < ANSWER {
        return Err(Refusal::Size);
    }
    check_in(journal, control.journal)
}

// What the central does with a string, once it may be heard.
fn react(
    control: Control,
    setup: Setup,
    journal: &mut [u8],
    pending: &mut [u8],
    string: &[u8],
) -> Reacted
    requires { Ready setup.settings control pending.old journal.old }
    ensures { Stores
        (reacts_in setup.entry.settings setup.entry.pagers.now control pending.old journal.old
        control.stage (heard control.stage string.now))
        result pending.old pending.new journal.old journal.new }
{
    if string.is_empty() {
        return stay(control, Answer::Nothing);
    }
    let mut text = [0u8; STRING];
    let Ok(n) = clear_parity(string, &mut text) else {
        return unrecognized(control, setup.settings);
    };
    react_to(control, setup, journal, pending, &text[..n])
}
