// What the gateway does with a line, once it may be read. `Ready` is a record of facts already: no type
// of its own would say it shorter.
ghost use Rattle.std.specs.Prelude.{true, false, ◌≡◌, ◌≤◌, Some};
ghost use Rattle.std.proofs.Math.ListN as ListN;
ghost use Rattle.line.specs.Character.{printable};
ghost use Rattle.line.specs.Test.{all};
ghost use Rattle.admission.specs.Content.{is_pager_id};
ghost use Rattle.central.specs.Inner.{Readable};
ghost use Rattle.snpp.specs.Command.{recognized, send};
ghost use Rattle.snpp.specs.Inner.{Does, Enters, Offers, Ready, emptied, pager_taken, reacts_in, staying};
ghost use Rattle.snpp.specs.State.{is_closed, no_text};

use crate::answer::Answer;
use crate::command::{Command, recognize};
use crate::state::{Control, Settings, Stage};
use admission::{admit, is_pager_id};
use line::character::{CR, Class, are};
use line::transaction::MOST_INFORMATION;

// The answer, the state but for the message itself, and the journal's length.
#[derive(Clone, Copy)]
pub struct Reacted {
    pub answer: Answer,
    pub control: Control,
    pub journal: usize,
}

// What no step changes: the settings, and the pager list. `central` has the same over settings of its own: two
// fields, and below both there is no crate that knows of settings.
#[derive(Clone, Copy)]
pub struct Setup<'a> {
    pub settings: Settings,
    pub pagers: &'a [u32],
}

// What the gateway does with a line. After QUIT it does nothing.
pub(crate) fn react(
    control: Control,
    setup: Setup,
    journal: &mut [u8],
    length: usize,
    message: &mut [u8],
    line: &[u8],
) -> Reacted
    requires { Ready setup.settings control message.old journal.old length × (ListN.length line.now ≤ 2048) }
    ensures { Does
        (reacts_in setup.entry.settings setup.entry.pagers.now control message.old journal.old length
        (recognized line.now))
        result message.new journal.old journal.new }
{
    if control.stage == Stage::Closed {
        return stay(control, Answer::Nothing, length);
    }
    match recognize(line) {
        Some(Command::Page(text)) => enter_pager(control, text, length),
        Some(Command::Message(text)) => enter_message(control, text, message, length),
        Some(Command::Send) => send_page(control, setup, journal, length, message),
        Some(Command::Reset) => forget(message, Stage::Open, Answer::Success, length),
        Some(Command::Quit) => forget(message, Stage::Closed, Answer::Goodbye, length),
        None => stay(control, Answer::Unknown, length),
    }
}

// PAGE: the latest pager ID counts.
fn enter_pager(control: Control, text: &[u8], journal: usize) -> Reacted
    ensures { result ≡ pager_taken control text.now journal }
{
    if !is_pager_id(text) {
        return stay(control, Answer::BadText, journal);
    }
    let mut pager = [0u8; 8];
    pager[..text.len()].copy_from_slice(text);
    let next = Control {
        pager,
        digits: text.len(),
        ..control
    };
    stay(next, Answer::Success, journal)
}

// MESS: the text is tested first, and only then whether it is the second.
fn enter_message(control: Control, text: &[u8], message: &mut [u8], journal: usize) -> Reacted
    requires { ListN.length text.now ≤ ListN.length message.old }
    ensures { Enters control text.now journal result message.old message.new }
{
    if !are(text, Class::Printable) {
        return stay(control, Answer::BadText, journal);
    }
    if control.stage == Stage::Entered {
        return stay(control, Answer::Order, journal);
    }
    message[..text.len()].copy_from_slice(text);
    let next = Control {
        stage: Stage::Entered,
        length: text.len(),
        ..control
    };
    stay(next, Answer::Success, journal)
}

// SEND: with pager ID and message both are forgotten, whether the page is stored or not.
fn send_page(
    control: Control,
    setup: Setup,
    journal: &mut [u8],
    length: usize,
    message: &mut [u8],
) -> Reacted
    requires { Ready setup.settings control message.old journal.old length × (is_closed control.stage ≡ false) }
    ensures { Does
        (reacts_in setup.entry.settings setup.entry.pagers.now control message.old journal.old length
        (Some send))
        result message.new journal.old journal.new }
{
    if (control.stage != Stage::Entered) | (control.digits == 0) {
        return stay(control, Answer::Order, length);
    }
    let Some(n) = offer(
        &control.pager[..control.digits],
        &message[..control.length],
        setup.settings.longest,
        setup.pagers,
        journal,
        length,
    ) else {
        return forget(message, Stage::Open, Answer::Failed, length);
    };
    forget(message, Stage::Open, Answer::Success, n)
}

// A page goes into the journal as a transaction, where content and room admit it: the journal's new length.
fn offer(
    pager: &[u8],
    message: &[u8],
    longest: usize,
    pagers: &[u32],
    journal: &mut [u8],
    length: usize,
) -> Option<usize>
    requires { (longest ≤ 2000) × (is_pager_id pager.now ≡ true) × (all printable message.now ≡ true) ×
        (ListN.length message.now ≤ 2043) × Readable journal.old length }
    ensures { Offers longest pagers.now length pager.now message.now
        result journal.old journal.new }
{
    let k = pager.len();
    let n = k + message.len() + 2;
    if MOST_INFORMATION < n {
        return None;
    }
    let mut info = [0u8; MOST_INFORMATION];
    info[..k].copy_from_slice(pager);
    info[k] = CR;
    info[k + 1..n - 1].copy_from_slice(message);
    info[n - 1] = CR;
    // Page and journal are right, so nothing is refused.
    admit(&info[..n], longest, pagers, journal, length).unwrap_or(None)
}

// A session in which nothing has been entered.
fn forget(message: &mut [u8], stage: Stage, answer: Answer, journal: usize) -> Reacted
    requires { ListN.length message.old ≡ 2043 }
    ensures { (result ≡ emptied stage answer journal) × (message.new ≡ no_text) }
{
    message.fill(0);
    Reacted {
        answer,
        control: Control {
            stage,
            pager: [0; 8],
            digits: 0,
            length: 0,
        },
        journal,
    }
}

// Nothing more changes.
fn stay(control: Control, answer: Answer, journal: usize) -> Reacted
    ensures { result ≡ staying control answer journal }
{
    Reacted {
        answer,
        control,
        journal,
    }
}
