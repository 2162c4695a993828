// The calls on the SNPP gateway: sessions from the start or from the state that the call gives, the
// greeting, a journal written out, and taken in again.
use crate::answer::{print_digest, print_number, print_refusal};
use crate::argument::{COUNT, byte, number, part, text, word};
use crate::calls::print_outcome;
use crate::deletion::print_deletions;
use crate::names::{COMMA, NOTHING, SPACE, say};
use line::Refusal;
use line::character::CR;
use line::memory::{copy, find, is_same};
use snpp::answer::greeting;
use snpp::step::{start, step};
use snpp::{Settings, Stage, State, Stepped, write_out};
use std::io;
use std::io::Write;

// Which argument the size of the journal's buffer is.
pub(crate) const SIZE: u8 = 6;

// Which argument the size of the output is: the last before the lines, or before the state.
pub(crate) const OUTPUT: u8 = 7;

// Which argument is the last before the lines, where the state is given.
const STATE: u8 = 12;

// What comes of the call that the first argument names.
pub(crate) fn print_gateway<W: Write>(
    to: &mut W,
    call: &[u8],
    pagers: &[u32],
    journal: &mut [u8],
    out: &mut [u8],
) -> io::Result<()> {
    match byte(word(call, 1), 0) {
        b'd' => print_deletions(to, call, journal),
        b'g' => print_put(to, greeting(out), out),
        b'w' => print_put(to, write_out(text(call), out), out),
        b'r' => print_round_trip(to, call, pagers, journal, out),
        b's' => print_session(to, call, OUTPUT, begun(call, start()), pagers, journal, out),
        _ => print_session(
            to,
            call,
            STATE,
            begun(call, saved(call)),
            pagers,
            journal,
            out,
        ),
    }
}

// The bytes that were put out, or why none; and all of the output. Both by their digests.
fn print_put<W: Write>(to: &mut W, outcome: Result<usize, Refusal>, out: &[u8]) -> io::Result<()> {
    match outcome {
        Ok(n) => print_digest(to, NOTHING, part(out, 0, n))?,
        Err(refusal) => print_refusal(to, refusal)?,
    }
    print_digest(to, SPACE, out)
}

// Before the first line: a state, and the journal's length.
fn begun(call: &[u8], state: State) -> Stepped {
    Stepped {
        outcome: Ok(0),
        state,
        journal: number(call, 3),
    }
}

// The state that the arguments behind the output are.
fn saved(call: &[u8]) -> State {
    let mut pager = [0; 8];
    let mut message = [0; 2043];
    let _ = copy(word(call, 9), &mut pager);
    let _ = copy(word(call, 11), &mut message);
    State {
        stage: stage_of(byte(word(call, 8), 0)),
        pager,
        digits: number(call, 10),
        message,
        length: number(call, 12),
    }
}

// A letter of the calls' file, which snpp does not know; a `From` for snpp's enum can't stand here.
fn stage_of(letter: u8) -> Stage {
    match letter {
        b'o' => Stage::Open,
        b'e' => Stage::Entered,
        _ => Stage::Closed,
    }
}

// What the gateway answers to each line behind an argument, and how all stands behind the last.
fn print_session<W: Write>(
    to: &mut W,
    call: &[u8],
    before: u8,
    begun: Stepped,
    pagers: &[u32],
    journal: &mut [u8],
    out: &mut [u8],
) -> io::Result<()> {
    let count = byte(call, COUNT);
    let mut stepped = begun;
    for index in before..count {
        stepped = hear(call, word(call, index + 1), stepped, pagers, journal, out);
        print_outcome(to, call, stepped.outcome, out)?;
        say(to, COMMA)?;
    }
    print_number(to, NOTHING, stepped.journal)?;
    print_digest(to, SPACE, journal)?;
    print_digest(to, SPACE, out)?;
    print_state(to, stepped.state)
}

// The step of the gateway over a line.
fn hear(
    call: &[u8],
    line: &[u8],
    before: Stepped,
    pagers: &[u32],
    journal: &mut [u8],
    out: &mut [u8],
) -> Stepped {
    let settings = Settings {
        longest: number(call, 2),
    };
    step(
        before.state,
        settings,
        pagers,
        journal,
        before.journal,
        line,
        out,
    )
}

// The stage, the digits and the message, with what stands behind them.
fn print_state<W: Write>(to: &mut W, state: State) -> io::Result<()> {
    let stage = state.stage;
    let pager = state.pager;
    let message = state.message;
    print_number(to, SPACE, stage_number(stage))?;
    print_number(to, SPACE, state.digits)?;
    print_digest(to, SPACE, &pager)?;
    print_number(to, SPACE, state.length)?;
    print_digest(to, SPACE, &message)
}

// A number of that file, as `stage_of`.
fn stage_number(stage: Stage) -> usize {
    match stage {
        Stage::Open => 0,
        Stage::Entered => 1,
        Stage::Closed => 2,
    }
}

// The last argument written out and taken in again: whether it is the same, and what the buffer holds.
fn print_round_trip<W: Write>(
    to: &mut W,
    call: &[u8],
    pagers: &[u32],
    journal: &mut [u8],
    out: &mut [u8],
) -> io::Result<()> {
    let outcome = write_out(text(call), out);
    print_put(to, outcome, out)?;
    let n = take_in(call, part(out, 0, outcome.unwrap_or(0)), pagers, journal);
    print_number(to, SPACE, is_same(text(call), part(journal, 0, n)) as usize)?;
    print_number(to, SPACE, n)?;
    print_digest(to, SPACE, journal)
}

// Takes lines in, from the start; the journal's length behind the last.
fn take_in(call: &[u8], lines: &[u8], pagers: &[u32], journal: &mut [u8]) -> usize {
    let mut answer = [0; 6];
    let mut stepped = begun(call, start());
    let mut from = 0;
    // From line to line: no `for`.
    while from < lines.len() {
        let end = find(lines, from, CR);
        stepped = hear(
            call,
            part(lines, from, end),
            stepped,
            pagers,
            journal,
            &mut answer,
        );
        let next = end.wrapping_add(2);
        if next <= from {
            return stepped.journal;
        }
        from = next;
    }
    stepped.journal
}
