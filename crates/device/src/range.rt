// Tests of settings and of a saved step: in range by themselves, and its place in the job.
ghost use Rattle.std.specs.Prelude.{List, [], ◌≡◌, ℕ, ◌≤◌, get_or, length};
ghost use Rattle.device.specs.Inner.{SendsOf, transaction_of};
ghost use Rattle.device.specs.Reaction.{segments_of};
ghost use Rattle.device.specs.Step.{attempts_in_range, exists, nowhere, settings_in_range, somewhere, step_in_range};

use crate::state::{Place, Settings, Step};
use line::password::is_password;
use line::setting::MOST_RETRIES;
use segmentation::block_count;

// The most strings that open a call.
pub(crate) const OPENINGS: usize = 3;

// A password, and the retry limit at most 9.
pub fn settings_in_range(settings: Settings) -> bool
    ensures { result ≡ settings_in_range settings }
{
    is_password(settings.password) & (settings.retries <= MOST_RETRIES)
}

// The attempts of a saved step are 1 to the step's most.
// One arm is true and the others test: a match, and no equality.
pub(crate) fn step_in_range(settings: Settings, step: Step) -> bool
    requires { settings.retries ≤ 9 }
    ensures { result ≡ step_in_range settings step }
{
    match step {
        Step::Opening(place) => attempts_in_range(OPENINGS, place),
        Step::Logon(place) | Step::Sending(place) | Step::Closing(place) => {
            attempts_in_range(settings.retries + 1, place)
        }
        Step::Stopped => true,
    }
}

// Attempts from 1 to the most.
fn attempts_in_range(most: usize, place: Place) -> bool
    ensures { result ≡ attempts_in_range most place }
{
    (1 <= place.attempts) & (place.attempts <= most)
}

// The transaction and block of a saved step exist in a job of so many transactions, of which this
// is the step's.
// One arm is true and the others test: a match, and no equality.
pub(crate) fn place_exists(settings: Settings, count: usize, info: &[u8], step: Step) -> bool
    ensures { (job : List (List ℕ)) → length job ≡ count → SendsOf job step info.now →
        result ≡ exists settings job step }
{
    match step {
        Step::Opening(place) | Step::Logon(place) | Step::Closing(place) => is_nowhere(place),
        Step::Sending(place) => block_exists(settings, count, info, place),
        Step::Stopped => true,
    }
}

// Outside sending, transaction and block are 0.
fn is_nowhere(place: Place) -> bool
    ensures { result ≡ nowhere place }
{
    (place.transaction == 0) & (place.block == 0)
}

// The job, of so many transactions, has such a transaction, and that, with this information, such a
// block.
fn block_exists(settings: Settings, count: usize, info: &[u8], place: Place) -> bool
    ensures { (job : List (List ℕ)) → length job ≡ count →
        get_or job place.transaction [] ≡ info.now → result ≡ somewhere settings job place }
{
    (place.transaction < count) & (place.block < blocks_of(settings, info))
}

// How many blocks the transaction with this information takes.
pub(crate) fn blocks_of(settings: Settings, info: &[u8]) -> usize
    ensures { result ≡ length (segments_of settings info.now) }
{
    block_count(settings.way, info)
}

// The transaction whose block a step sends; the first outside sending.
pub(crate) fn transaction_of(step: Step) -> usize
    ensures { result ≡ transaction_of step }
{
    match step {
        Step::Sending(place) => place.transaction,
        Step::Opening(_) | Step::Logon(_) | Step::Closing(_) | Step::Stopped => 0,
    }
}
