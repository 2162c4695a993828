// What becomes of accepted verdicts at the stop, and a verdict buffer settled.
ghost use Rattle.std.specs.Prelude.{List, map, ◌≡◌, ℕ};
ghost use Rattle.line.specs.Answer.{done};
ghost use Rattle.device.specs.Reaction.{move_as};
ghost use Rattle.device.specs.Settling as Settling;
ghost use Rattle.device.specs.Step.{sent, standing_of};
ghost use Rattle.device.specs.declared.state.Report.TheVariants as Reporting;

use crate::reaction::Move;
use crate::state::{Confirmation, Report, Settings, Step, Verdict};
use reply::{Meaning, Reply};

// How the accepted verdicts of a call stand.
#[derive(Clone, Copy)]
pub enum Standing {
    // Nothing is said of them: the call goes on, or was over before.
    Open,
    // They stay accepted.
    Confirmed,
    // Each becomes in doubt.
    InDoubt,
}

// Settles a verdict buffer: in doubt, every 1 becomes 6; no other byte ever changes.
pub fn settle(standing: Standing, verdicts: &mut [u8])
    ensures { verdicts.new ≡ Settling.settled_numbers standing verdicts.old }
{
    match standing {
        Standing::Open | Standing::Confirmed => {}
        Standing::InDoubt => doubt(verdicts),
    }
}

// Every 1 becomes 6.
fn doubt(verdicts: &mut [u8])
    ensures { verdicts.new ≡ map Settling.doubted_number verdicts.old }
{
    for v in verdicts.iter_mut() {
        *v = doubted(*v);
    }
}

// The number of a verdict that is put in doubt. Numbers, since `settle` is lent what C keeps.
fn doubted(number: u8) -> u8
    ensures { result ≡ Settling.doubted_number number }
{
    if number == u8::from(Verdict::Accepted) {
        u8::from(Verdict::InDoubt)
    } else {
        number
    }
}

// How the accepted verdicts stand behind a move from a step.
pub(crate) fn standing_after(settings: Settings, step: Step, next: Move) -> Standing
    ensures { (job : List (List ℕ)) → result ≡ standing_of step (done (sent settings job (move_as next))) }
{
    if matches!(step, Step::Stopped) {
        return Standing::Open;
    }
    if !matches!(next.step, Step::Stopped) {
        return Standing::Open;
    }
    standing_by(settings.confirmation, next.report)
}

// How they stand at a stop with this report.
fn standing_by(confirmation: Confirmation, report: Report) -> Standing
    ensures { result ≡ Settling.standing_by confirmation report }
{
    match confirmation {
        Confirmation::Early => Standing::Confirmed,
        Confirmation::Late if confirms(report) => Standing::Confirmed,
        Confirmation::Late => Standing::InDoubt,
    }
}

// What a call reports confirms: the close was answered with ESC EOT.
fn confirms(report: Report) -> bool
    ensures { result ≡ Settling.confirms report }
{
    match report {
        Report::Close(reply) => is_eot(reply),
        Report::Nothing => false,
    }
}

// The reply to the close is ESC EOT: an unread one confirms nothing. `let .. else` is the named form.
fn is_eot(reply: Reply) -> bool
    ensures { result ≡ Settling.confirms (Reporting.Close reply) }
{
    let Some(meaning) = reply else {
        return false;
    };
    meaning == Meaning::Eot
}
