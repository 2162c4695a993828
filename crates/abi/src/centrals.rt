// The central's settings, state and steps as C has them.
ghost use Rattle.std.specs.Prelude.{◌≡◌, ltb, if◌then◌else◌};
ghost use Rattle.std.proofs.Math.ListN as ListN;
ghost use Rattle.line.specs.Answer.{done, outcome_of, refusal_number, refused};
ghost use Rattle.central.specs.Lent.{start_in};
ghost use Rattle.abi.specs.Centrals.{CentralSteps, central_dropped, central_stepped, control_of, drop_answer, packed};
ghost use Rattle.abi.specs.Centrals.{record_of, refusing, stage_number, stage_of};
ghost use Rattle.abi.specs.Settings.{central_settings_of};

use crate::answer::Answer;
use crate::password::Password;
use central::lent::{hang_up, start, step};
use central::{Control, Moved, Settings, Stage};
use line::Refusal;

#[repr(C)]
#[derive(Clone, Copy)]
pub struct CentralSettings {
    pub password: Password,
    pub longest: usize,
    pub retries: usize,
}

// The stage by its number: 0 Idle, 1 Logon, 2 Block, 3 Closed. The unfinished information lies in lent memory.
#[repr(C)]
#[derive(Clone, Copy)]
pub struct CentralState {
    pub stage: u8,
    pub failures: usize,
    pub length: usize,
    pub journal: usize,
}

#[repr(C)]
#[derive(Clone, Copy)]
pub struct CentralStepped {
    pub answer: Answer,
    pub state: CentralState,
}

// The state before the first call, over a journal of this length.
#[unsafe(no_mangle)]
pub extern "C" fn tyntolai_central_start(journal: usize) -> CentralState
    ensures { result ≡ record_of (start_in journal) }
{
    CentralState::from(start(journal))
}

// What the central does with a string as it came off the line.
#[unsafe(no_mangle)]
pub extern "C" fn tyntolai_central_step(
    state: CentralState,
    settings: CentralSettings,
    pagers: &[u32],
    journal: &mut [u8],
    pending: &mut [u8],
    string: &[u8],
    out: &mut [u8],
) -> CentralStepped
    ensures { CentralSteps
        (central_stepped state pending.old settings pagers.now journal.old
        string.now (ListN.length out.old))
        state result
        pending.old pending.new
        journal.old journal.new
        out.old out.new }
{
    match Control::try_from(state) {
        Ok(control) => CentralStepped::from(step(
            control,
            Settings::from(settings),
            pagers,
            journal,
            pending,
            string,
            out,
        )),
        Err(refusal) => refuse(state, refusal),
    }
}

// The line was dropped.
#[unsafe(no_mangle)]
pub extern "C" fn tyntolai_central_hang_up(
    state: CentralState,
    settings: CentralSettings,
    pending: &[u8],
) -> CentralStepped
    ensures { result ≡ drop_answer state (central_dropped state pending.now settings) }
{
    match Control::try_from(state) {
        Ok(control) => CentralStepped::from(hang_up(control, Settings::from(settings), pending)),
        Err(refusal) => refuse(state, refusal),
    }
}

// What a step answers, in numbers.
impl From<Moved> for CentralStepped {
    ghost from_gives = { λ moved stepped. stepped ≡ packed (outcome_of moved.outcome) moved.control };

    fn from(moved: Moved) -> CentralStepped {
        CentralStepped {
            answer: Answer::from(moved.outcome),
            state: CentralState::from(moved.control),
        }
    }
}

// A refusal leaves the record.
pub(crate) fn refuse(state: CentralState, refusal: Refusal) -> CentralStepped
    ensures { result ≡ refusing state (refusal_number refusal) }
{
    CentralStepped {
        answer: Answer::from(refusal),
        state,
    }
}

impl From<CentralSettings> for Settings {
    ghost from_gives = { λ lent settings. settings ≡ central_settings_of lent };

    fn from(settings: CentralSettings) -> Settings {
        Settings {
            password: line::Password::from(settings.password),
            longest: settings.longest,
            retries: settings.retries,
        }
    }
}

// The control that a record is.
impl TryFrom<CentralState> for Control {
    type Error = Refusal;

    ghost try_from_gives = { λ state control. outcome_of control ≡ (if ltb 3 state.stage then refused 9 else done (control_of state)) };

    fn try_from(state: CentralState) -> Result<Control, Refusal> {
        Ok(Control {
            stage: stage_of(state.stage)?,
            failures: state.failures,
            length: state.length,
            journal: state.journal,
        })
    }
}

// The record of a control.
impl From<Control> for CentralState {
    ghost from_gives = { λ control state. state ≡ record_of control };

    fn from(control: Control) -> CentralState {
        CentralState {
            stage: stage_number(control.stage),
            failures: control.failures,
            length: control.length,
            journal: control.journal,
        }
    }
}

// The numbers are C's alone, and a `From` for central's enum can't stand here.
fn stage_of(number: u8) -> Result<Stage, Refusal>
    ensures { outcome_of result ≡ (if ltb 3 number then refused 9 else done (stage_of number)) }
{
    match number {
        0 => Ok(Stage::Idle),
        1 => Ok(Stage::Logon),
        2 => Ok(Stage::Block),
        3 => Ok(Stage::Closed),
        _ => Err(Refusal::Range),
    }
}

fn stage_number(stage: Stage) -> u8
    ensures { result ≡ stage_number stage }
{
    match stage {
        Stage::Idle => 0,
        Stage::Logon => 1,
        Stage::Block => 2,
        Stage::Closed => 3,
    }
}
