// What the central does with a text, stage by stage. Settings and control are public records that hold
// anything, so what is right of them is asked for and in no type; `Ready` is a record of facts already.
ghost use Rattle.std.specs.Prelude.{true, List, [], ◌++◌, ◌≡◌, ℕ, ◌+◌, ◌≤◌};
ghost use Rattle.std.proofs.Math.ListN as ListN;
ghost use Rattle.line.specs.Answer.{Laid};
ghost use Rattle.line.specs.Transaction.{legal};
ghost use Rattle.block.specs.Block.{right};
ghost use Rattle.block.specs.Segments.{continues};
ghost use Rattle.central.specs.Hearing as Hearing;
ghost use Rattle.central.specs.Hearing.{recognized};
ghost use Rattle.central.specs.Inner.{Continues, Does, Readable, Ready, Stores, answer_of, concludes_in, pending_in, reacts_in, takes_in};
ghost use Rattle.central.specs.Reaction.{Rules, at, fails, reacts};
ghost use Rattle.central.specs.Step.{rules_of};
ghost use Rattle.central.specs.declared.state.Stage.TheVariants.{Idle, Logon, Block};

use crate::answer::Answer;
use crate::logon::{has_password, logs_on};
use crate::state::{Control, Settings, Stage};
use admission::admit;
use block::Ending;
use block::frame::{inside, read};
use line::Refusal;
use line::character::{CR, EOT};
use line::memory::is_same;
use line::transaction::MOST_INFORMATION;

// The answer, and the central behind it.
#[derive(Clone, Copy)]
pub struct Reacted {
    pub answer: Answer,
    pub control: Control,
}

// What no step changes: the settings, and the pager list. `snpp` has the same over settings of its own: two
// fields, and below both there is no crate that knows of settings.
#[derive(Clone, Copy)]
pub struct Setup<'a> {
    pub settings: Settings,
    pub pagers: &'a [u32],
}

// What the stage does with a text. The journal is written only where a transaction is stored, the
// pending information only where one goes on.
pub(crate) fn react_to(
    control: Control,
    setup: Setup,
    journal: &mut [u8],
    pending: &mut [u8],
    text: &[u8],
) -> Reacted
    requires { Ready setup.settings control pending.old journal.old }
    ensures { Stores
        (reacts_in setup.entry.settings setup.entry.pagers.now control pending.old journal.old
        control.stage (recognized control.stage text.now))
        result pending.old pending.new journal.old journal.new }
{
    // A `match`: the stages are a closed list.
    match control.stage {
        Stage::Idle => in_idle(control, text),
        Stage::Logon => in_logon(control, setup.settings, text),
        Stage::Block => in_block(control, setup, journal, pending, text),
        Stage::Closed => stay(control, Answer::Nothing),
    }
}

// What the stage does with what it does not recognize.
pub(crate) fn unrecognized(control: Control, settings: Settings) -> Reacted
    requires { (settings.retries ≤ 9) × (control.failures ≤ settings.retries) }
    ensures { (pagers : List ℕ) → Does (λ c. reacts (rules_of settings pagers) c control.stage Hearing.noise) control result }
{
    match control.stage {
        Stage::Logon | Stage::Block => fail(control, settings),
        Stage::Idle | Stage::Closed => stay(control, Answer::Nothing),
    }
}

// CR: the caller is asked who calls.
fn in_idle(control: Control, text: &[u8]) -> Reacted
    ensures { (rules : Rules (List (List ℕ))) →
        Does (λ c. reacts rules c Idle (recognized Idle text.now)) control result }
{
    if is_same(text, &[CR]) {
        return enter(control, Stage::Logon, Answer::IdRequest);
    }
    stay(control, Answer::Nothing)
}

// CR: the caller is asked again. `PG1` and the password: accepted. All else is a failure.
fn in_logon(control: Control, settings: Settings, text: &[u8]) -> Reacted
    requires { (settings.password.length ≤ 6) ×
        (settings.retries ≤ 9) × (control.failures ≤ settings.retries) }
    ensures { (pagers : List ℕ) →
        Does (λ c. reacts (rules_of settings pagers) c Logon (recognized Logon text.now)) control result }
{
    if is_same(text, &[CR]) {
        return stay(control, Answer::IdRequest);
    }
    if !logs_on(text) {
        return fail(control, settings);
    }
    if !has_password(&text[1..text.len() - 1], settings.password) {
        return fail(control, settings);
    }
    enter(control, Stage::Block, Answer::Acceptance)
}

// EOT CR: the call is over. A block is taken, or refused by its information. All else is a failure.
fn in_block(
    control: Control,
    setup: Setup,
    journal: &mut [u8],
    pending: &mut [u8],
    text: &[u8],
) -> Reacted
    requires { Ready setup.settings control pending.old journal.old }
    ensures { Stores
        (reacts_in setup.entry.settings setup.entry.pagers.now control pending.old journal.old
        Block (recognized Block text.now))
        result pending.old pending.new journal.old journal.new }
{
    if is_same(text, &[EOT, CR]) {
        return enter(control, Stage::Closed, Answer::HangUp);
    }
    match read(text) {
        Ok(ending) => take_block(control, setup, journal, pending, inside(text), ending),
        // Right in its frame, and wrong in its information.
        Err(Refusal::Information) => enter(control, Stage::Block, Answer::Rs),
        Err(_) => fail(control, setup.settings),
    }
}

// A block whose information is right: the pending information goes on, or the transaction is whole.
fn take_block(
    control: Control,
    setup: Setup,
    journal: &mut [u8],
    pending: &mut [u8],
    info: &[u8],
    ending: Ending,
) -> Reacted
    requires { Ready setup.settings control pending.old journal.old × (right info.now ending ≡ true) }
    ensures { Stores
        (takes_in setup.entry.settings setup.entry.pagers.now control pending.old journal.old
        (pending_in control pending.old ++ info.now) (continues ending))
        result pending.old pending.new journal.old journal.new }
{
    if setup.settings.longest < control.length + info.len() {
        return enter(control, Stage::Block, Answer::Rs);
    }
    match ending {
        Ending::Etx => conclude(control, setup, journal, pending, info),
        Ending::Etb | Ending::Us => go_on(control, pending, info),
    }
}

// The last block of a transaction that is at most L long. It and what is pending are joined in a
// copy; a transaction of one block needs none.
fn conclude(
    control: Control,
    setup: Setup,
    journal: &mut [u8],
    pending: &[u8],
    info: &[u8],
) -> Reacted
    requires { Ready setup.settings control pending.now journal.old ×
        (legal (pending_in control pending.now ++ info.now) ≡ true) ×
        (ListN.length (pending_in control pending.now ++ info.now) ≤ setup.settings.longest) }
    ensures { Stores
        (concludes_in setup.entry.settings setup.entry.pagers.now control pending.now journal.old
        (pending_in control pending.now ++ info.now))
        result pending.now pending.now journal.old journal.new }
{
    if control.length == 0 {
        return store(control, setup, journal, info);
    }
    let mut whole = [0u8; MOST_INFORMATION];
    let n = join(&pending[..control.length], info, &mut whole);
    store(control, setup, journal, &whole[..n])
}

// Both texts, one behind the other, at the start of the output. `framer` has these two lines too, over its records.
fn join(first: &[u8], second: &[u8], out: &mut [u8]) -> usize
    requires { ListN.length first.now + ListN.length second.now ≤ ListN.length out.old }
    ensures { Laid (first.now ++ second.now) result out.old out.new }
{
    let n = first.len();
    let end = n + second.len();
    out[..n].copy_from_slice(first);
    out[n..end].copy_from_slice(second);
    end
}

// A whole transaction: appended and acknowledged if it is admitted, else refused.
fn store(control: Control, setup: Setup, journal: &mut [u8], info: &[u8]) -> Reacted
    requires { Readable journal.old control.journal × (legal info.now ≡ true) }
    ensures { (array : List ℕ) → control.length ≤ ListN.length array →
        Stores
        (concludes_in setup.entry.settings setup.entry.pagers.now control array journal.old info.now)
        result array array journal.old journal.new }
{
    let Ok(Some(n)) = admit(
        info,
        setup.settings.longest,
        setup.pagers,
        journal,
        control.journal,
    ) else {
        return enter(control, Stage::Block, Answer::Rs);
    };
    let stored = Control {
        journal: n,
        ..control
    };
    enter(stored, Stage::Block, Answer::Ack)
}

// The transaction goes on: the block's information is put behind the pending information.
fn go_on(control: Control, pending: &mut [u8], info: &[u8]) -> Reacted
    requires { control.length + ListN.length info.now ≤ ListN.length pending.old }
    ensures { Continues control info.now result pending.old pending.new }
{
    let end = control.length + info.len();
    pending[control.length..end].copy_from_slice(info);
    Reacted {
        answer: Answer::Ack,
        control: Control {
            stage: Stage::Block,
            failures: 0, // ACK starts the row again.
            length: end,
            journal: control.journal,
        },
    }
}

// A failure: NAK, or where the row is complete ESC EOT, and the call is over.
fn fail(control: Control, settings: Settings) -> Reacted
    requires { (settings.retries ≤ 9) × (control.failures ≤ settings.retries) }
    ensures { (pagers : List ℕ) → Does (fails (rules_of settings pagers)) control result }
{
    if control.failures == settings.retries {
        return enter(control, Stage::Closed, Answer::HangUp);
    }
    Reacted {
        answer: Answer::Nak,
        control: Control {
            failures: control.failures + 1,
            ..control
        },
    }
}

// A stage at the start of a row of failures; the transaction so far is dropped.
fn enter(control: Control, stage: Stage, answer: Answer) -> Reacted
    ensures { Does (λ c. record { next = at stage [] c.journal; answer = answer_of answer }) control result }
{
    Reacted {
        answer,
        control: Control {
            stage,
            failures: 0,
            length: 0,
            journal: control.journal,
        },
    }
}

// Nothing changes.
pub(crate) fn stay(control: Control, answer: Answer) -> Reacted
    ensures { Does (λ c. record { next = c; answer = answer_of answer }) control result }
{
    Reacted { answer, control }
}
