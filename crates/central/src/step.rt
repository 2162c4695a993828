// The central's steps over a state that is one value.
// These and the steps in lent.rt are one step, in two ways of keeping the state.
ghost use Rattle.std.specs.Prelude.{◌≡◌};
ghost use Rattle.std.proofs.Math.ListN as ListN;
ghost use Rattle.central.specs.Lent.{control_in, whole_of};
ghost use Rattle.central.specs.Step.{Drops, Steps, dropped, start_of, stepped};

use crate::lent;
use crate::state::{Control, Moved, Settings, Stage, State, Stepped};

// The most bytes of an answer.
pub const ANSWER: usize = 7;

// The longest string that any stage recognizes.
pub const STRING: usize = 256;

// The state before the first call, over a journal of this length.
pub fn start(journal: usize) -> State
    ensures { result ≡ start_of journal }
{
    State {
        stage: Stage::Idle,
        failures: 0,
        pending: [0; 2000],
        length: 0,
        journal,
    }
}

// The line was dropped: the unfinished transaction is gone, and the central waits for a call.
// Nothing is put out.
pub fn hang_up(state: State, settings: Settings) -> Stepped
    ensures { Drops (dropped state settings) state result }
{
    let pending = state.pending;
    let moved = lent::hang_up(control_of(state), settings, &pending);
    join(moved, pending)
}

// What the central does with a string as it came off the line; the empty string where nothing came.
pub fn step(
    state: State,
    settings: Settings,
    pagers: &[u32],
    journal: &mut [u8],
    string: &[u8],
    out: &mut [u8],
) -> Stepped
    ensures { Steps
        (stepped state settings pagers.now journal.old string.now
        (ListN.length out.old))
        state result journal.old journal.new out.old out.new }
{
    let mut pending = state.pending;
    let moved = lent::step(
        control_of(state),
        settings,
        pagers,
        journal,
        &mut pending,
        string,
        out,
    );
    join(moved, pending)
}

// All of a state but the unfinished information itself: part of it, so no `From`.
pub fn control_of(state: State) -> Control
    ensures { result ≡ control_in state }
{
    Control {
        stage: state.stage,
        failures: state.failures,
        length: state.length,
        journal: state.journal,
    }
}

// What a step answers, with the unfinished information behind it: of two values, so no `From`.
pub fn join(moved: Moved, pending: [u8; 2000]) -> Stepped
    ensures { result ≡ whole_of moved pending }
{
    let control = moved.control;
    Stepped {
        outcome: moved.outcome,
        state: State {
            stage: control.stage,
            failures: control.failures,
            pending,
            length: control.length,
            journal: control.journal,
        },
    }
}
