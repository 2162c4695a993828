// The entry device's settings, state and steps as C has them.
ghost use Rattle.std.specs.Prelude.{◌≡◌, ltb, length, None, if◌then◌else◌};
ghost use Rattle.line.specs.Answer.{done, outcome_of, refusal_number, refused};
ghost use Rattle.device.specs.Remarks.{remarks_at};
ghost use Rattle.device.specs.Step.{started};
ghost use Rattle.abi.specs.Devices.{DeviceSteps, device_stepped, filled, packed, record_of, refusing};
ghost use Rattle.abi.specs.Devices.{report_number, step_of, stopped, transaction_in, verdict_in};
ghost use Rattle.abi.specs.Settings.{device_settings_of, of_settings};

use crate::answer::Answer;
use crate::password::Password;
use crate::remarks::Remarks;
use crate::replies::reply_number;
use crate::settling::{confirmation_of, standing_number};
use crate::way::way_of;
use device::step::{start, step};
use device::{Given, Place, Report, Settings, State, Step, Stepped};
use line::Refusal;

// The way of cutting by its number: 0 filled, 1 whole fields; and when an accepted verdict stands: 0 early,
// 1 late.
#[repr(C)]
#[derive(Clone, Copy)]
pub struct DeviceSettings {
    pub password: Password,
    pub retries: usize,
    pub way: u8,
    pub confirmation: u8,
}

// The step by its number: 0 Stopped, 1 Opening, 2 Logon, 3 Sending, 4 Closing; and its particulars,
// which are 0 once the device has stopped.
#[repr(C)]
#[derive(Clone, Copy)]
pub struct DeviceState {
    pub step: u8,
    pub transaction: usize,
    pub block: usize,
    pub attempts: usize,
}

// The verdict that a step gives, 0 where it gives none, and on which transaction; the reply to the
// close: 0 where this step reports none, else 1 plus its number; silence is a reply not recognized, so 1;
// how the accepted verdicts stand: 0 open, 1 confirmed, 2 in doubt; and where the central's lines stand
// in the reply.
#[repr(C)]
#[derive(Clone, Copy)]
pub struct DeviceStepped {
    pub answer: Answer,
    pub state: DeviceState,
    pub verdict: u8,
    pub transaction: usize,
    pub report: u8,
    pub standing: u8,
    pub remarks: Remarks,
}

// The start of a call for a job.
#[unsafe(no_mangle)]
pub extern "C" fn tyntolai_device_start(
    settings: DeviceSettings,
    job: &[u8],
    out: &mut [u8],
) -> DeviceStepped
    ensures { DeviceSteps
        (of_settings settings (started (device_settings_of settings) job.now (length out.old)))
        stopped None result out.old out.new }
{
    let stopped = DeviceState::from(Step::Stopped);
    match Settings::try_from(settings) {
        Ok(settings) => pack(stopped, start(settings, job, out)),
        Err(refusal) => refuse(stopped, refusal),
    }
}

// What the device does with a reply as it came off the line.
#[unsafe(no_mangle)]
pub extern "C" fn tyntolai_device_step(
    state: DeviceState,
    settings: DeviceSettings,
    job: &[u8],
    reply: &[u8],
    out: &mut [u8],
) -> DeviceStepped
    ensures { DeviceSteps
        (device_stepped state settings job.now reply.now (length out.old))
        state (remarks_at (step_of state) reply.now) result out.old out.new }
{
    let Ok(step_now) = Step::try_from(state) else {
        return refuse(state, Refusal::Range);
    };
    match Settings::try_from(settings) {
        Ok(settings) => pack(
            state,
            step(State { step: step_now }, settings, job, reply, out),
        ),
        Err(refusal) => refuse(state, refusal),
    }
}

// What a step answers: a refusal leaves the record.
fn pack(state: DeviceState, stepped: Stepped) -> DeviceStepped
    ensures { result ≡ packed state (outcome_of stepped.outcome) stepped }
{
    match stepped.outcome {
        Ok(count) => DeviceStepped {
            answer: Answer { count, code: 0 },
            state: DeviceState::from(stepped.state.step),
            verdict: verdict_in(stepped.given),
            transaction: transaction_in(stepped.given),
            report: report_number(stepped.report),
            standing: standing_number(stepped.standing),
            remarks: Remarks::from(stepped.remarks),
        },
        Err(refusal) => refuse(state, refusal),
    }
}

fn refuse(state: DeviceState, refusal: Refusal) -> DeviceStepped
    ensures { result ≡ refusing state (refusal_number refusal) }
{
    DeviceStepped {
        answer: Answer::from(refusal),
        state,
        verdict: 0,
        transaction: 0,
        report: 0,
        standing: 0,
        remarks: Remarks::from(None),
    }
}

// The settings whose way and confirmation are numbered.
impl TryFrom<DeviceSettings> for Settings {
    type Error = Refusal;

    ghost try_from_gives = { λ lent settings. outcome_of settings ≡ of_settings lent (done (device_settings_of lent)) };

    fn try_from(settings: DeviceSettings) -> Result<Settings, Refusal> {
        Ok(Settings {
            password: line::Password::from(settings.password),
            retries: settings.retries,
            way: way_of(settings.way)?,
            confirmation: confirmation_of(settings.confirmation)?,
        })
    }
}

// The step that a record is.
impl TryFrom<DeviceState> for Step {
    type Error = Refusal;

    ghost try_from_gives = { λ state step. outcome_of step ≡ (if ltb 4 state.step then refused 9 else done (step_of state)) };

    fn try_from(state: DeviceState) -> Result<Step, Refusal> {
        let place = Place {
            transaction: state.transaction,
            block: state.block,
            attempts: state.attempts,
        };
        match state.step {
            0 => Ok(Step::Stopped),
            1 => Ok(Step::Opening(place)),
            2 => Ok(Step::Logon(place)),
            3 => Ok(Step::Sending(place)),
            4 => Ok(Step::Closing(place)),
            _ => Err(Refusal::Range),
        }
    }
}

// The record of a step.
impl From<Step> for DeviceState {
    ghost from_gives = { λ step state. state ≡ record_of step };

    fn from(step: Step) -> DeviceState {
        match step {
            Step::Opening(place) => fill(1, place),
            Step::Logon(place) => fill(2, place),
            Step::Sending(place) => fill(3, place),
            Step::Closing(place) => fill(4, place),
            Step::Stopped => DeviceState {
                step: 0,
                transaction: 0,
                block: 0,
                attempts: 0,
            },
        }
    }
}

fn fill(step: u8, place: Place) -> DeviceState
    ensures { result ≡ filled step place }
{
    DeviceState {
        step,
        transaction: place.transaction,
        block: place.block,
        attempts: place.attempts,
    }
}

// 0 for none, as C has it: the record has no place for an Option.
fn verdict_in(given: Option<Given>) -> u8
    ensures { result ≡ verdict_in given }
{
    match given {
        Some(given) => u8::from(given.verdict),
        None => 0,
    }
}

// 0 for none, as above.
fn transaction_in(given: Option<Given>) -> usize
    ensures { result ≡ transaction_in given }
{
    match given {
        Some(given) => given.transaction,
        None => 0,
    }
}

// The numbers are C's alone, and a `From` for device's enum can't stand here.
fn report_number(report: Report) -> u8
    ensures { result ≡ report_number report }
{
    match report {
        Report::Close(reply) => 1 + reply_number(reply),
        Report::Nothing => 0,
    }
}
