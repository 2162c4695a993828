// The entry device's settings, its saved state, and what a step answers.
ghost use Rattle.std.specs.Prelude.{◌≡◌};
ghost use Rattle.device.specs.Reaction.{verdict_number};

use crate::settling::Standing;
use line::{Password, Refusal};
use reply::{Remarks, Reply};
use segmentation::Way;

#[derive(Clone, Copy)]
pub struct Settings {
    pub password: Password,
    // How often a string is sent again after NAK, 0 to 9.
    pub retries: usize,
    // How a transaction is cut into blocks.
    pub way: Way,
    // When an accepted verdict stands.
    pub confirmation: Confirmation,
}

// When an accepted verdict stands.
#[derive(Clone, Copy)]
pub enum Confirmation {
    // As soon as it is given.
    Early,
    // Once the close is answered with ESC EOT; any other stop leaves it in doubt.
    Late,
}

// Which block of which transaction is waited for, both from 0, and how often the string was sent.
// Outside sending, transaction and block are 0.
#[derive(Clone, Copy)]
pub struct Place {
    pub transaction: usize,
    pub block: usize,
    pub attempts: usize,
}

// The step that the device waits in for a reply.
#[derive(Clone, Copy)]
pub enum Step {
    Opening(Place),
    Logon(Place),
    Sending(Place),
    Closing(Place),
    Stopped,
}

#[derive(Clone, Copy)]
pub struct State {
    pub step: Step,
}

// What became of a transaction.
#[derive(Clone, Copy)]
pub enum Verdict {
    // 1: stored by the central (document 01's taken).
    Accepted,
    // 2: refused by the central.
    Rejected,
    // 3: no reply that could be read (unread).
    Unconfirmed,
    // 4: not stored, and to be sent in another call (held back).
    Deferred,
    // 5: never sent (unsent).
    Unsent,
    // 6: was accepted, and the close did not confirm it (document 02's in doubt).
    InDoubt,
}

// The number of a verdict, by the name that README.md gives it: `u8::from` goes through it.
pub fn verdict_number(verdict: Verdict) -> u8
    ensures { result ≡ verdict_number verdict }
{
    match verdict {
        Verdict::Accepted => 1,
        Verdict::Rejected => 2,
        Verdict::Unconfirmed => 3,
        Verdict::Deferred => 4,
        Verdict::Unsent => 5,
        Verdict::InDoubt => 6,
    }
}

impl From<Verdict> for u8 {
    ghost from_gives = { λ verdict number. number ≡ verdict_number verdict };

    fn from(verdict: Verdict) -> u8 {
        verdict_number(verdict)
    }
}

// A verdict, and the transaction that it is given to.
#[derive(Clone, Copy)]
pub struct Given {
    pub transaction: usize,
    pub verdict: Verdict,
}

// The reply to the close, once it came. No Option: a reply is one itself, and `Some(None)`, that the
// close was answered by nothing that could be read, says less than `Close(None)`.
#[derive(Clone, Copy)]
pub enum Report {
    Close(Reply),
    Nothing,
}

// The bytes put out, or the refusal; the state behind the step; what it gives and reports; at the
// stop, what becomes of the accepted verdicts given before; and where the central's lines stand in
// the reply that was read. A refusal hands the state back too: no `Result` round all of it.
#[derive(Clone, Copy)]
pub struct Stepped {
    pub outcome: Result<usize, Refusal>,
    pub state: State,
    pub given: Option<Given>,
    pub report: Report,
    pub standing: Standing,
    pub remarks: Option<Remarks>,
}
