// The calls on deletions: each from the state and the journal that the call gives.
use crate::answer::{print_count, print_number};
use crate::argument::{COUNT, byte, word};
use crate::ends::{saved_central, stage_name};
use crate::names::{NOTHING, SPACE, TIMES, say};
use central::step::{control_of, join};
use central::{State, Stepped};
use line::memory::is_same;
use std::io;
use std::io::Write;

// Which argument the bytes at the start of the journal's buffer are.
const JOURNAL: u8 = 5;

// Which argument the state begins with.
const STAGE: u8 = 8;

// Which argument is the last before the deletions.
const LENGTH: u8 = 12;

// The most bytes of a kind that are printed one by one.
const FEW: usize = 7;

// What comes of each deletion.
pub(crate) fn print_deletions<W: Write>(
    to: &mut W,
    call: &[u8],
    journal: &mut [u8],
) -> io::Result<()> {
    let count = byte(call, COUNT);
    for index in LENGTH..count {
        say(to, if LENGTH < index { SPACE } else { NOTHING })?;
        print_deletion(to, call, word(call, index + 1), journal)?;
    }
    Ok(())
}

// The outcome of a deletion, the state behind it, and what it changed in the buffer.
fn print_deletion<W: Write>(
    to: &mut W,
    call: &[u8],
    deletion: &[u8],
    journal: &mut [u8],
) -> io::Result<()> {
    let begin = word(call, JOURNAL);
    lay(begin, journal);
    let state = saved_central(call, STAGE);
    let deleted = delete_by(deletion, state, journal);
    print_count(to, deleted.outcome)?;
    print_state(to, state, deleted.state)?;
    print_change(to, begin, journal)
}

// Lends the buffer anew.
fn lay(begin: &[u8], journal: &mut [u8]) {
    for (i, place) in journal.iter_mut().enumerate() {
        *place = lent(begin, i);
    }
}

// The byte that is lent at a place: behind the bytes that the call gives, such as tell places apart.
fn lent(begin: &[u8], at: usize) -> u8 {
    match begin.get(at) {
        Some(&byte) => byte,
        None => (at % 251) as u8, // A division, made only where it is asked for.
    }
}

// The deletion that the first byte names, by place or by pager; a capital letter makes it beside lent
// memory.
fn delete_by(deletion: &[u8], state: State, journal: &mut [u8]) -> Stepped {
    let n = wide(deletion);
    let number = (n % 0x100000000) as u32;
    let pending = state.pending;
    match byte(deletion, 0) {
        b'd' => delete::delete(state, journal, n),
        b'p' => delete::delete_pager(state, journal, number),
        b'D' => join(delete::lent::delete(control_of(state), journal, n), pending),
        _ => join(
            delete::lent::delete_pager(control_of(state), journal, number),
            pending,
        ),
    }
}

// The number behind the first byte, high first.
fn wide(deletion: &[u8]) -> usize {
    let mut n = 0;
    for &b in deletion.iter().skip(1) {
        n = n % 0x100000000000000 * 256 + b as usize;
    }
    n
}

// The stage, the failures, the length of what is unfinished, whether its memory is the same as before,
// and the journal's length.
fn print_state<W: Write>(to: &mut W, before: State, state: State) -> io::Result<()> {
    let stage = state.stage;
    let old = before.pending;
    let pending = state.pending;
    print_number(to, stage_name(stage), state.failures)?;
    print_number(to, SPACE, state.length)?;
    print_number(to, SPACE, is_same(&old, &pending) as usize)?;
    print_number(to, SPACE, state.journal)?;
    say(to, SPACE)
}

// Every byte of the buffer, XORed with the one that was lent: in hex, many of a kind as one and how
// many.
fn print_change<W: Write>(to: &mut W, begin: &[u8], journal: &[u8]) -> io::Result<()> {
    let mut from = 0;
    // From run to run, by its bytes: no `for`.
    while from < journal.len() {
        let next = print_run(
            to,
            turned(begin, journal, from),
            from,
            run_end(begin, journal, from),
        )?;
        if next <= from {
            return Ok(());
        }
        from = next;
    }
    Ok(())
}

// The bytes of a kind between two places, or the first of them where they are few; where the rest begins.
fn print_run<W: Write>(to: &mut W, byte: u8, from: usize, end: usize) -> io::Result<usize> {
    let count = end.wrapping_sub(from);
    write!(to, "{byte:02x}")?;
    if count <= FEW {
        return Ok(from.wrapping_add(1));
    }
    say(to, TIMES)?;
    write!(to, "{count:04x}")?;
    Ok(end)
}

// Where the bytes of a kind that begin at a place end.
fn run_end(begin: &[u8], journal: &[u8], from: usize) -> usize {
    let kind = turned(begin, journal, from);
    for end in from..journal.len() {
        if turned(begin, journal, end) != kind {
            return end;
        }
    }
    journal.len()
}

// A byte of the buffer, XORed with the one that was lent: 0 where it is the same.
fn turned(begin: &[u8], journal: &[u8], at: usize) -> u8 {
    byte(journal, at) ^ lent(begin, at)
}
