// One step of the gateway, for one line with its ending off.
ghost use Rattle.std.specs.Prelude.{◌≡◌};
ghost use Rattle.std.proofs.Math.ListN as ListN;
ghost use Rattle.line.specs.Answer.{map_done, outcome_of};
ghost use Rattle.snpp.specs.Inner.{state_of};
ghost use Rattle.snpp.specs.Step.{Steps, start_state, stepped, tested};

use crate::answer::{ANSWER, put_answer};
use crate::range::{in_range, settings_in_range};
use crate::reaction::{Setup, react};
use crate::state::{Control, Settings, Stage, State, Stepped};
use central::range::pagers_in_range;
use journal::buffer::check_in;
use line::Refusal;

// The longest line.
pub const LINE: usize = 2048;

// The state before the first line: nothing has been entered.
pub fn start() -> State
    ensures { result ≡ start_state }
{
    State {
        stage: Stage::Open,
        pager: [0; 8],
        digits: 0,
        message: [0; 2043],
        length: 0,
    }
}

// What the gateway does with a line, over the journal of this length at the start of its buffer.
pub fn step(
    state: State,
    settings: Settings,
    pagers: &[u32],
    journal: &mut [u8],
    length: usize,
    line: &[u8],
    out: &mut [u8],
) -> Stepped
    ensures { Steps
        (stepped state settings pagers.now journal.old length line.now
        (ListN.length out.old))
        state length result journal.old journal.new out.old out.new }
{
    let mut message = state.message;
    let pager = state.pager;
    // The state is taken apart and put together here: its 2 KB go through no `From`.
    let control = Control {
        stage: state.stage,
        pager,
        digits: state.digits,
        length: state.length,
    };
    let setup = Setup { settings, pagers };
    let tested = test(
        control,
        setup,
        journal,
        length,
        &message,
        line.len(),
        out.len(),
    );
    if let Err(refusal) = tested {
        return Stepped {
            outcome: Err(refusal),
            state,
            journal: length,
        };
    }
    let reacted = react(control, setup, journal, length, &mut message, line);
    let next = reacted.control;
    let pager = next.pager;
    Stepped {
        outcome: put_answer(reacted.answer, out),
        state: State {
            stage: next.stage,
            pager,
            digits: next.digits,
            message,
            length: next.length,
        },
        journal: reacted.journal,
    }
}

// How many transactions the journal has, or why the step is refused.
fn test(
    control: Control,
    setup: Setup,
    journal: &[u8],
    length: usize,
    message: &[u8],
    size: usize,
    room: usize,
) -> Result<usize, Refusal>
    ensures { outcome_of result ≡
        map_done ListN.length
        (tested (state_of control message.now) setup.entry.settings setup.entry.pagers.now journal.now length
        size room) }
{
    if !(settings_in_range(setup.settings)
        & pagers_in_range(setup.pagers)
        & in_range(control, message))
    {
        return Err(Refusal::Range);
    }
    if room < ANSWER {
        return Err(Refusal::Size);
    }
    let count = check_in(journal, length)?;
    if LINE < size {
        return Err(Refusal::Length);
    }
    Ok(count)
}
