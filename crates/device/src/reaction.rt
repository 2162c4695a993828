// What a reply does at each step: the next step, the verdict it gives, and what it reports.
ghost use Rattle.std.specs.Prelude.{List, ◌≡◌, ℕ, ◌≤◌, ◌<◌, length};
ghost use Rattle.device.specs.Inner.{Waits};
ghost use Rattle.device.specs.Reaction as Reaction;
ghost use Rattle.device.specs.declared.state.Settings.{Settings};

use crate::range::{OPENINGS, blocks_of};
use crate::state::{Given, Place, Report, Settings, Step, Verdict};
use reply::{Meaning, Reply};

// The step behind a reply, the verdict it gives, and what it reports.
#[derive(Clone, Copy)]
pub(crate) struct Move {
    pub step: Step,
    pub given: Option<Given>,
    pub report: Report,
}

// The code of a reply to a block.
#[derive(Clone, Copy)]
pub(crate) enum Code {
    Ack,
    Nak,
    Rs,
    // ESC EOT: the central hangs up.
    Eot,
}

// What the device does with a reply, step by step. The job has so many transactions, and the step's
// has this information. The settings were tested, which their type cannot say, since C hands over
// any; each contract below says of the retry limit what its addition needs.
pub(crate) fn moves(settings: Settings, count: usize, info: &[u8], step: Step, reply: Reply) -> Move
    requires { (settings.retries ≤ 9)
        × ((job : List (List ℕ)) × (length job ≡ count) × Waits settings job step info.now) }
    ensures { (job : List (List ℕ)) → length job ≡ count → Waits settings job step info.now →
        Reaction.move_as result ≡ Reaction.moves settings job step reply }
{
    // A `match`: the steps are a closed list, the papers' own.
    match step {
        Step::Opening(place) => opens(place, reply),
        Step::Logon(place) => logs_on(settings, count, place, reply),
        Step::Sending(place) => {
            let blocks = blocks_of(settings, info);
            sends(settings, count, blocks, place, reply)
        }
        Step::Closing(place) => closes(settings, place, reply),
        Step::Stopped => goes(Step::Stopped),
    }
}

// Opening: an ID request leads to the logon; anything else, recognized or not, to CR again.
fn opens(place: Place, reply: Reply) -> Move
    ensures { Reaction.move_as result ≡ Reaction.opens place reply }
{
    let Some(meaning) = reply else {
        return opens_again(place);
    };
    match meaning {
        Meaning::IdRequest => goes(Step::Logon(first())),
        Meaning::Acceptance | Meaning::Ack | Meaning::Nak | Meaning::Rs | Meaning::Eot => {
            opens_again(place)
        }
    }
}

// CR again, three times at most.
fn opens_again(place: Place) -> Move
    ensures { Reaction.move_as result ≡ Reaction.opens_again place }
{
    if place.attempts < OPENINGS {
        return goes(Step::Opening(again(place)));
    }
    goes(Step::Stopped)
}

// Logon: an acceptance leads to the first transaction, NAK or an ID request to the logon again;
// anything else, recognized or not, stops.
fn logs_on(settings: Settings, count: usize, place: Place, reply: Reply) -> Move
    requires { settings.retries ≤ 9 }
    ensures { (job : List (List ℕ)) → length job ≡ count → Reaction.move_as result ≡ Reaction.logs_on settings job place reply }
{
    let Some(meaning) = reply else {
        return goes(Step::Stopped);
    };
    match meaning {
        Meaning::Acceptance => goes(onwards(count, 0)),
        Meaning::Nak | Meaning::IdRequest => {
            if may_repeat(settings, place) {
                goes(Step::Logon(again(place)))
            } else {
                goes(Step::Stopped)
            }
        }
        Meaning::Ack | Meaning::Rs | Meaning::Eot => goes(Step::Stopped),
    }
}

// A block, of so many that its transaction takes: what is unrecognized leaves it unconfirmed,
// and it is never sent again.
fn sends(settings: Settings, count: usize, blocks: usize, place: Place, reply: Reply) -> Move
    requires { (settings.retries ≤ 9) × (place.transaction < count) × (place.block < blocks) }
    ensures { (job : List (List ℕ)) → length job ≡ count → Reaction.blocks_in settings job place.transaction ≡ blocks →
        Reaction.move_as result ≡ Reaction.sends settings job place reply }
{
    let transaction = place.transaction;
    let Some(code) = block_reply(reply) else {
        return gives(transaction, Verdict::Unconfirmed, Step::Stopped);
    };
    match code {
        Code::Ack => sends_next(count, blocks, place),
        Code::Nak => sends_again(settings, place),
        Code::Rs => {
            let next = onwards(count, transaction + 1);
            gives(transaction, Verdict::Rejected, next)
        }
        Code::Eot => gives(transaction, Verdict::Deferred, Step::Stopped),
    }
}

// A reply as the block's step reads it: an ID request and a logon acceptance are
// unrecognized there (document 01's unread).
pub(crate) fn block_reply(reply: Reply) -> Option<Code>
    ensures { result ≡ Reaction.block_reply reply }
{
    let Some(meaning) = reply else {
        return None;
    };
    match meaning {
        Meaning::Ack => Some(Code::Ack),
        Meaning::Nak => Some(Code::Nak),
        Meaning::Rs => Some(Code::Rs),
        Meaning::Eot => Some(Code::Eot),
        Meaning::IdRequest | Meaning::Acceptance => None,
    }
}

// The next block, or accepted and the next transaction, where the block ended its own.
fn sends_next(count: usize, blocks: usize, place: Place) -> Move
    requires { (place.transaction < count) × (place.block < blocks) }
    ensures { (settings : Settings) (job : List (List ℕ)) → length job ≡ count →
        Reaction.blocks_in settings job place.transaction ≡ blocks →
        Reaction.move_as result ≡ Reaction.sends_next settings job place }
{
    let transaction = place.transaction;
    if place.block + 1 == blocks {
        let step = onwards(count, transaction + 1);
        return gives(transaction, Verdict::Accepted, step);
    }
    goes(Step::Sending(Place {
        transaction,
        block: place.block + 1,
        attempts: 1,
    }))
}

// The block again, while the retry limit lets it, then deferred.
fn sends_again(settings: Settings, place: Place) -> Move
    requires { settings.retries ≤ 9 }
    ensures { Reaction.move_as result ≡ Reaction.sends_again settings place }
{
    if may_repeat(settings, place) {
        return goes(Step::Sending(again(place)));
    }
    gives(place.transaction, Verdict::Deferred, Step::Stopped)
}

// Closing: NAK leads to the close again; any other reply, recognized or not, is
// reported.
fn closes(settings: Settings, place: Place, reply: Reply) -> Move
    requires { settings.retries ≤ 9 }
    ensures { Reaction.move_as result ≡ Reaction.closes settings place reply }
{
    let Some(meaning) = reply else {
        return reports(reply);
    };
    match meaning {
        Meaning::Nak => {
            if may_repeat(settings, place) {
                goes(Step::Closing(again(place)))
            } else {
                reports(reply)
            }
        }
        Meaning::IdRequest | Meaning::Acceptance | Meaning::Ack | Meaning::Rs | Meaning::Eot =>
            reports(reply),
    }
}

// The string may be sent once more: in all, the retry limit and one.
fn may_repeat(settings: Settings, place: Place) -> bool
    ensures { result ≡ Reaction.may_repeat settings place }
{
    place.attempts <= settings.retries
}

// The first block of a transaction, or the close where the job, of so many transactions, has none
// such.
fn onwards(count: usize, transaction: usize) -> Step
    ensures { (job : List (List ℕ)) → length job ≡ count → result ≡ Reaction.onwards job transaction }
{
    if transaction < count {
        return Step::Sending(Place {
            transaction,
            block: 0,
            attempts: 1,
        });
    }
    Step::Closing(first())
}

// The first attempt of a step that sends no block.
pub(crate) fn first() -> Place
    ensures { result ≡ Reaction.first }
{
    Place {
        transaction: 0,
        block: 0,
        attempts: 1,
    }
}

// The same place, once more.
fn again(place: Place) -> Place
    requires { place.attempts ≤ 9 }
    ensures { result ≡ Reaction.again place }
{
    Place {
        attempts: place.attempts + 1,
        ..place
    }
}

// On to a step, with no verdict.
pub(crate) fn goes(step: Step) -> Move
    ensures { Reaction.move_as result ≡ Reaction.goes step }
{
    Move {
        step,
        given: None,
        report: Report::Nothing,
    }
}

// On to a step, with a verdict on a transaction.
fn gives(transaction: usize, verdict: Verdict, step: Step) -> Move
    ensures { Reaction.move_as result ≡ Reaction.gives transaction verdict step }
{
    Move {
        step,
        given: Some(Given {
            transaction,
            verdict,
        }),
        report: Report::Nothing,
    }
}

// The end of the call, with the reply to the close.
fn reports(reply: Reply) -> Move
    ensures { Reaction.move_as result ≡ Reaction.reports reply }
{
    Move {
        step: Step::Stopped,
        given: None,
        report: Report::Close(reply),
    }
}
