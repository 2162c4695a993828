// The calls on the two ends of the line: strings played to the central, replies played to the entry
// device; from the start, or from the state that the call gives.
use crate::answer::{print_digest, print_number, reply_name};
use crate::argument::{COUNT, byte, confirmation_of, letter_of, number, part, way_of, word};
use crate::calls::print_outcome;
use crate::names;
use crate::names::{COMMA, NOTHING, SPACE, say};
use crate::remarks::print_reported;
use central::Stage;
use device::{Given, Place, Report, Step};
use line::Password;
use line::memory::copy;
use std::io;
use std::io::Write;

// Which argument the journal is: the last before the strings, or before the central's state.
const JOURNAL: u8 = 5;

// Which argument the central's stage is, where its state is given.
const STAGE: u8 = 6;

// Which argument is the last before the strings, where the central's state is given.
const CENTRAL: u8 = 12;

// Which argument the job is: the last before the replies, or before the device's state.
pub(crate) const JOB: u8 = 3;

// Which argument is the last before the replies, where the device's state is given.
const DEVICE: u8 = 8;

// Room for pager numbers, one more than a list may have.
pub(crate) const PAGERS: usize = 1001;

// The state of an end before the first string or reply, and which argument is the last before it.
#[derive(Clone, Copy)]
pub(crate) struct Begun<S> {
    pub(crate) state: S,
    pub(crate) before: u8,
}

// ── The central ──

// The pager list in the bytes, four for each number.
pub(crate) fn list_pagers(numbers: &[u8]) -> [u32; PAGERS] {
    let mut pagers = [0; PAGERS];
    for (i, pager) in pagers.iter_mut().enumerate() {
        let at = i * 4;
        *pager = u32::from_be_bytes(std::array::from_fn(|j| byte(numbers, at + j)));
    }
    pagers
}

// What the central answers to each string, and the state behind the last.
pub(crate) fn print_conversation<W: Write>(
    to: &mut W,
    call: &[u8],
    pagers: &[u32],
    journal: &mut [u8],
    answer: &mut [u8],
) -> io::Result<()> {
    let count = byte(call, COUNT);
    let heard = first_heard(call);
    let before = heard.before;
    let mut state = heard.state;
    for index in before..count {
        say(to, if before < index { SPACE } else { NOTHING })?;
        state = hear(
            to,
            call,
            word(call, index + 1),
            state,
            pagers,
            journal,
            answer,
        )?;
    }
    print_central(to, call, state, journal, answer)
}

// From the start, or from the state that the call gives.
fn first_heard(call: &[u8]) -> Begun<central::State> {
    if letter_of(call) == b'd' {
        let state = central::step::start(word(call, JOURNAL).len());
        return Begun {
            state,
            before: JOURNAL,
        };
    }
    let state = saved_central(call, STAGE);
    Begun {
        state,
        before: CENTRAL,
    }
}

// The state that five arguments are, the stage the first of them.
pub(crate) fn saved_central(call: &[u8], stage: u8) -> central::State {
    let mut pending = [0; 2000];
    let _ = copy(word(call, stage.wrapping_add(2)), &mut pending);
    central::State {
        stage: stage_of(byte(word(call, stage), 0)),
        failures: number(call, stage.wrapping_add(1)),
        pending,
        length: number(call, stage.wrapping_add(3)),
        journal: number(call, stage.wrapping_add(4)),
    }
}

// A letter of the calls' file, which central does not know; a `From` for central's enum can't stand here.
fn stage_of(letter: u8) -> Stage {
    match letter {
        b'i' => Stage::Idle,
        b'l' => Stage::Logon,
        b'b' => Stage::Block,
        _ => Stage::Closed,
    }
}

// The step of the central over a string. Two bytes FF stand for the driver's word that the line was
// dropped.
fn hear<W: Write>(
    to: &mut W,
    call: &[u8],
    string: &[u8],
    state: central::State,
    pagers: &[u32],
    journal: &mut [u8],
    answer: &mut [u8],
) -> io::Result<central::State> {
    let settings = central_settings(call);
    if matches!(string, [0xFF, 0xFF]) {
        let dropped = central::step::hang_up(state, settings);
        let outcome = dropped.outcome;
        print_outcome(to, call, outcome, string)?;
        return Ok(dropped.state);
    }
    let stepped = central::step::step(state, settings, pagers, journal, string, answer);
    print_outcome(to, call, stepped.outcome, answer)?;
    Ok(stepped.state)
}

// The central's settings: the first three arguments.
pub(crate) fn central_settings(call: &[u8]) -> central::Settings {
    central::Settings {
        password: password(word(call, 1)),
        longest: number(call, 2),
        retries: number(call, 3),
    }
}

// A password: where it is too long, its length says so.
fn password(text: &[u8]) -> Password {
    Password {
        characters: std::array::from_fn(|i| byte(text, i)),
        length: text.len(),
    }
}

// The stage, the failures, the length of what is unfinished, and the journal by its digest; where the
// call gave the state, also the unfinished information and the buffers.
fn print_central<W: Write>(
    to: &mut W,
    call: &[u8],
    state: central::State,
    journal: &[u8],
    answer: &[u8],
) -> io::Result<()> {
    print_number(to, stage_name(state.stage), state.failures)?;
    print_number(to, SPACE, state.length)?;
    print_digest(to, SPACE, part(journal, 0, state.journal))?;
    if letter_of(call) == b'f' {
        let pending = state.pending;
        print_number(to, SPACE, state.journal)?;
        print_digest(to, SPACE, part(&pending, 0, state.length))?;
        print_digest(to, SPACE, journal)?;
        print_digest(to, SPACE, answer)?;
    }
    Ok(())
}

// A word of the calls' file, as `stage_of`; nor can a `Display`.
pub(crate) fn stage_name(stage: Stage) -> &'static str {
    match stage {
        Stage::Idle => names::IDLE,
        Stage::Logon => names::LOGON,
        Stage::Block => names::BLOCK,
        Stage::Closed => names::CLOSED,
    }
}

// ── The entry device ──

// What the entry device sends first, or why it does not start; and what it does with each reply. Or,
// at both, where it reports that the central's lines stand.
pub(crate) fn print_play<W: Write>(to: &mut W, call: &[u8], string: &mut [u8]) -> io::Result<()> {
    let count = byte(call, COUNT);
    let begun = begin(to, call, string)?;
    let mut state = begun.state;
    for index in begun.before..count {
        state = take(to, call, word(call, index + 1), state, string)?;
    }
    if letter_of(call) == b'g' {
        print_device(to, state)?;
        print_digest(to, SPACE, string)?;
    }
    Ok(())
}

// From the start, or from the state that the call gives.
pub(crate) fn begin<W: Write>(
    to: &mut W,
    call: &[u8],
    string: &mut [u8],
) -> io::Result<Begun<device::State>> {
    let started = device::step::start(device_settings(call, 1), word(call, JOB), string);
    let outcome = started.outcome;
    let state = started.state;
    if letter_of(call) == b'x' {
        print_reported(to, NOTHING, started.remarks, outcome)?;
        return Ok(saved_device(call));
    }
    print_outcome(to, call, outcome, string)?;
    if letter_of(call) == b'g' {
        return Ok(saved_device(call));
    }
    // A call that is refused takes no reply.
    let before = if outcome.is_ok() {
        JOB
    } else {
        byte(call, COUNT)
    };
    Ok(Begun { state, before })
}

// The state that the arguments behind the job are.
fn saved_device(call: &[u8]) -> Begun<device::State> {
    let place = Place {
        transaction: number(call, 5),
        block: number(call, 6),
        attempts: number(call, 7),
    };
    // The letter is read here alone, for another crate's enum: no `TryFrom`.
    let step = match byte(word(call, 4), 0) {
        b'o' => Step::Opening(place),
        b'l' => Step::Logon(place),
        b's' => Step::Sending(place),
        b'c' => Step::Closing(place),
        _ => Step::Stopped,
    };
    let state = device::State { step };
    Begun {
        state,
        before: DEVICE,
    }
}

// The entry device's settings: the password at an index, the retry limit behind it, and what the
// letter names.
pub(crate) fn device_settings(call: &[u8], index: u8) -> device::Settings {
    device::Settings {
        password: password(word(call, index)),
        retries: number(call, index.wrapping_add(1)),
        way: way_of(call),
        confirmation: confirmation_of(call),
    }
}

// The step of the entry device over a reply.
fn take<W: Write>(
    to: &mut W,
    call: &[u8],
    reply: &[u8],
    state: device::State,
    string: &mut [u8],
) -> io::Result<device::State> {
    let settings = device_settings(call, 1);
    let stepped = device::step::step(state, settings, word(call, JOB), reply, string);
    let outcome = stepped.outcome;
    if letter_of(call) == b'x' {
        print_reported(to, COMMA, stepped.remarks, outcome)?;
        return Ok(stepped.state);
    }
    print_given(to, stepped.given, stepped.report)?;
    print_outcome(to, call, outcome, string)?;
    Ok(stepped.state)
}

// The verdict that a step gives, or the reply to the close that it reports, or `-`.
fn print_given<W: Write>(to: &mut W, given: Option<Given>, report: Report) -> io::Result<()> {
    match given {
        Some(given) => {
            print_number(to, COMMA, given.transaction)?;
            print_number(to, names::EQUALS, u8::from(given.verdict) as usize)?;
        }
        None => match report {
            Report::Close(reply) => {
                say(to, names::CLOSED)?;
                say(to, reply_name(reply))?;
            }
            Report::Nothing => say(to, names::UNREPORTED)?,
        },
    }
    say(to, SPACE)
}

// The step, with its transaction, block and attempts.
fn print_device<W: Write>(to: &mut W, state: device::State) -> io::Result<()> {
    match state.step {
        Step::Opening(place) => print_place(to, names::OPENING, place),
        Step::Logon(place) => print_place(to, names::LOGON, place),
        Step::Sending(place) => print_place(to, names::SENDING, place),
        Step::Closing(place) => print_place(to, names::CLOSING, place),
        Step::Stopped => say(to, names::STOPPED),
    }
}

fn print_place<W: Write>(to: &mut W, name: &str, place: Place) -> io::Result<()> {
    print_number(to, name, place.transaction)?;
    print_number(to, SPACE, place.block)?;
    print_number(to, SPACE, place.attempts)
}
