// The job: whether the way of cutting can cut it.
ghost use Rattle.std.specs.Prelude.{true, ◌≡◌, ◌≤◌, length};
ghost use Rattle.line.specs.Answer.{output};
ghost use Rattle.journal.specs.Cursor.{walk_from};
ghost use Rattle.journal.specs.Walk.{decode};
ghost use Rattle.device.specs.Step.{cuts_all};

use journal::Position;
use journal::cursor::{open, step_back};
use segmentation::Way;
use segmentation::way::is_cuttable;

// No field of a job is too long for the way. The job is a journal lent at its exact length; of one
// that is not well formed nothing is found.
// One arm is true and the other tests: a match, and no equality.
pub fn cuts_all(way: Way, job: &[u8]) -> bool
    ensures { result ≡ cuts_all way (output (decode job.now)) }
{
    match way {
        Way::Filled => true,
        Way::WholeFields => {
            let Ok(position) = open(job) else {
                return true;
            };
            cuts_from(way, job, position)
        }
    }
}

// The same of the records before a position.
fn cuts_from(way: Way, job: &[u8], position: Position) -> bool
    requires { position.end ≤ length job.now }
    ensures { result ≡ cuts_all way (output (walk_from job.now position)) }
{
    let mut at = position;
    let mut every = true;
    // A refusal finds nothing here and is not handed on: a `loop` with three ends, and no `?`.
    loop {
        match step_back(job, at) {
            Ok(Some(place)) => {
                at = place.next;
                let start = place.start;
                let end = start + place.length;
                every &= is_cuttable(way, &job[start..end]);
            }
            Ok(None) => return every,
            Err(_) => return true,
        }
    }
}
