// The gateway's settings, state and steps as C has them, and the journal written out.
ghost use Rattle.std.specs.Prelude.{◌≡◌, ltb, if◌then◌else◌};
ghost use Rattle.std.proofs.Math.ListN as ListN;
ghost use Rattle.line.specs.Answer.{copied, done, outcome_of, refused};
ghost use Rattle.export.specs.Export.{written_out};
ghost use Rattle.snpp.specs.Reaction.{answer_text, ready};
ghost use Rattle.snpp.specs.Step.{start_state};
ghost use Rattle.abi.specs.Answer.{Puts};
ghost use Rattle.abi.specs.Gateways.{GatewaySteps, gateway_stepped, record_of, stage_number, stage_of};

use crate::answer::Answer;
use export::write_out;
use line::Refusal;
use snpp::answer::greeting;
use snpp::step::step;
use snpp::{Settings, Stage, State};

#[repr(C)]
#[derive(Clone, Copy)]
pub struct GatewaySettings {
    pub longest: usize,
}

// The stage by its number: 0 Open, 1 Entered, 2 Closed.
#[repr(C)]
#[derive(Clone, Copy)]
pub struct GatewayState {
    pub stage: u8,
    pub pager: [u8; 8],
    pub digits: usize,
    pub message: [u8; 2043],
    pub length: usize,
}

#[repr(C)]
#[derive(Clone, Copy)]
pub struct GatewayStepped {
    pub answer: Answer,
    pub state: GatewayState,
    pub journal: usize,
}

// The state before the first line, written out: 2 KB go through no helper.
#[unsafe(no_mangle)]
pub extern "C" fn tyntolai_snpp_start() -> GatewayState
    ensures { result ≡ record_of start_state }
{
    GatewayState {
        stage: 0,
        pager: [0; 8],
        digits: 0,
        message: [0; 2043],
        length: 0,
    }
}

// What a client waits for before its first command.
#[unsafe(no_mangle)]
pub extern "C" fn tyntolai_snpp_greeting(out: &mut [u8]) -> Answer
    ensures { Puts
        (copied (answer_text ready) (ListN.length out.old))
        result out.old out.new }
{
    Answer::from(greeting(out))
}

// What the gateway does with a line, its ending off, over the journal of this length at the start of its
// buffer. The record is taken apart and put together here: its 2 KB go through no helper.
#[unsafe(no_mangle)]
pub extern "C" fn tyntolai_snpp_step(
    state: GatewayState,
    settings: GatewaySettings,
    pagers: &[u32],
    journal: &mut [u8],
    length: usize,
    line: &[u8],
    out: &mut [u8],
) -> GatewayStepped
    ensures { GatewaySteps
        (gateway_stepped state settings pagers.now journal.old length line.now
        (ListN.length out.old))
        state length result journal.old journal.new out.old out.new }
{
    let Ok(stage) = stage_of(state.stage) else {
        return GatewayStepped {
            answer: Answer::from(Refusal::Range),
            state,
            journal: length,
        };
    };
    let pager = state.pager;
    let message = state.message;
    let stepped = step(
        State {
            stage,
            pager,
            digits: state.digits,
            message,
            length: state.length,
        },
        Settings {
            longest: settings.longest,
        },
        pagers,
        journal,
        length,
        line,
        out,
    );
    let after = stepped.state;
    let pager = after.pager;
    let message = after.message;
    GatewayStepped {
        answer: Answer::from(stepped.outcome),
        state: GatewayState {
            stage: stage_number(after.stage),
            pager,
            digits: after.digits,
            message,
            length: after.length,
        },
        journal: stepped.journal,
    }
}

// The records of a journal, oldest first, as the lines that bring them in again.
#[unsafe(no_mangle)]
pub extern "C" fn tyntolai_write_out(journal: &[u8], out: &mut [u8]) -> Answer
    ensures { Puts
        (written_out journal.now (ListN.length out.old))
        result out.old out.new }
{
    Answer::from(write_out(journal, out))
}

// The numbers are C's alone, and a `From` for snpp's enum can't stand here.
fn stage_of(number: u8) -> Result<Stage, Refusal>
    ensures { outcome_of result ≡ (if ltb 2 number then refused 9 else done (stage_of number)) }
{
    match number {
        0 => Ok(Stage::Open),
        1 => Ok(Stage::Entered),
        2 => Ok(Stage::Closed),
        _ => Err(Refusal::Range),
    }
}

fn stage_number(stage: Stage) -> u8
    ensures { result ≡ stage_number stage }
{
    match stage {
        Stage::Open => 0,
        Stage::Entered => 1,
        Stage::Closed => 2,
    }
}
