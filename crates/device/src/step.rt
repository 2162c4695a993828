// One step of the entry device: a reply off the line, the next string and the state behind it.
ghost use Rattle.std.specs.Prelude.{true, None, List, ◌≡◌, ℕ, ◌+◌, ◌≤◌, drop, length, take};
ghost use Rattle.line.specs.Answer.{done, map_done, outcome_of};
ghost use Rattle.line.specs.Password.{password_in_range};
ghost use Rattle.journal.specs.Survey.{survey_of};
ghost use Rattle.device.specs.Inner.{Waits, extent_for, transaction_of};
ghost use Rattle.device.specs.Reaction.{move_as};
ghost use Rattle.device.specs.Remarks.{remarks_at};
ghost use Rattle.device.specs.Step.{StepsShowing, answered, sent, started, stepped, tested};
ghost use Rattle.device.specs.declared.state.Step.TheVariants as Variants;

use crate::job::cuts_all;
use crate::range::{place_exists, settings_in_range, step_in_range, transaction_of};
use crate::reaction::{Move, first, goes, moves};
use crate::remarks::counted_as;
use crate::settling::{Standing, standing_after};
use crate::state::{Settings, State, Step, Stepped};
use crate::string::{ROOM, put_string};
use journal::record::{Extent, Located, survey};
use line::Refusal;
use reply::remarks::remarks_of;
use reply::{Remarks, read};

// The start of a call for a job, a journal lent at its exact length: the first string and state.
pub fn start(settings: Settings, job: &[u8], out: &mut [u8]) -> Stepped
    ensures { StepsShowing (started settings job.now (length out.old))
        Variants.Stopped None result out.old out.new }
{
    match test(settings, Step::Stopped, job, out.len()) {
        Ok(found) => send(
            settings,
            part(job, found.here),
            Step::Stopped,
            goes(Step::Opening(first())),
            None,
            out,
        ),
        Err(refusal) => answer(Err(refusal), Standing::Open, None, goes(Step::Stopped)),
    }
}

// What the device does with a reply as it came off the line; the empty string where nothing came.
pub fn step(state: State, settings: Settings, job: &[u8], reply: &[u8], out: &mut [u8]) -> Stepped
    ensures { StepsShowing (stepped state settings job.now reply.now (length out.old))
        state.step (remarks_at state.step reply.now) result out.old out.new }
{
    let step = state.step;
    match test(settings, step, job, out.len()) {
        Ok(found) => {
            let info = part(job, found.here);
            let heard = read(reply);
            let next = moves(settings, found.count, info, step, heard);
            let extent = extent_for(found, step, next);
            let following = part(job, extent);
            let remarks = remarks_of(counted_as(step, heard), reply);
            send(settings, following, step, next, remarks, out)
        }
        Err(refusal) => answer(Err(refusal), Standing::Open, None, goes(step)),
    }
}

// How many transactions the job has, and where the step's and the one behind it lie; or why the call
// is refused. This is the one walk over the job, besides the one for fields that are kept whole.
fn test(settings: Settings, step: Step, job: &[u8], room: usize) -> Result<Located, Refusal>
    ensures { outcome_of result ≡ map_done (survey_of (transaction_of step)) (tested settings step job.now room) }
{
    if !settings_in_range(settings) {
        return Err(Refusal::Range);
    }
    if !step_in_range(settings, step) {
        return Err(Refusal::Range);
    }
    if room < ROOM {
        return Err(Refusal::Size);
    }
    // No `?`: what is handed on stands on a line of its own, which a must-fail edit turns.
    let surveyed = survey(job, transaction_of(step));
    let Ok(found) = surveyed else {
        return surveyed;
    };
    if !cuts_all(settings.way, job) {
        return Err(Refusal::Length);
    }
    if !place_exists(settings, found.count, part(job, found.here), step) {
        return Err(Refusal::Range);
    }
    Ok(found)
}

// The part of the job at an extent.
fn part(job: &[u8], extent: Extent) -> &[u8]
    requires { extent.start + extent.length ≤ length job.now }
    ensures { result.now ≡ take extent.length (drop extent.start job.now) }
{
    let start = extent.start;
    let end = start + extent.length;
    &job[start..end]
}

// Where the transaction of the next step lies: the same, or the one behind it.
fn extent_for(found: Located, step: Step, next: Move) -> Extent
    ensures { result ≡ extent_for found (transaction_of step) (transaction_of next.step) }
{
    if transaction_of(next.step) == transaction_of(step) {
        found.here
    } else {
        found.next
    }
}

// A move from a step, with the string of the step that it leads to, whose transaction has this
// information, and the remarks in the reply.
fn send(
    settings: Settings,
    info: &[u8],
    step: Step,
    next: Move,
    remarks: Option<Remarks>,
    out: &mut [u8],
) -> Stepped
    requires { (password_in_range settings.password ≡ true)
        × ((job : List (List ℕ)) × Waits settings job next.step info.now)
        × (256 ≤ length out.old) }
    ensures { (job : List (List ℕ)) → Waits settings job next.step info.now →
        StepsShowing (done (sent settings job (move_as next))) step remarks result out.old out.new }
{
    let n = put_string(settings, info, next.step, out);
    answer(Ok(n), standing_after(settings, step, next), remarks, next)
}

// What the call comes to, how the accepted verdicts stand, the remarks, and the move.
fn answer(
    outcome: Result<usize, Refusal>,
    standing: Standing,
    remarks: Option<Remarks>,
    next: Move,
) -> Stepped
    ensures { result ≡ answered outcome standing remarks (move_as next) }
{
    Stepped {
        outcome,
        state: State { step: next.step },
        given: next.given,
        report: next.report,
        standing,
        remarks,
    }
}
