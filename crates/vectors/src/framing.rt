// The call on the framer: pieces fed to it as a driver feeds them, from the state that the call gives,
// and then a flush.
use crate::answer::{print_bytes, print_digest, print_number, print_refusal};
use crate::argument::{COUNT, byte, number, part, word};
use crate::calls::print_outcome;
use crate::names::{COMMA, NOTHING, PART, SPACE, say};
use framer::Framer;
use line::Refusal;
use line::memory::copy;
use std::io;
use std::io::Write;

// Which argument the size of the output is: the last before the pieces.
pub(crate) const ROOM: u8 = 3;

// What comes of each piece, and then of a flush; and the output before and behind the flush.
pub(crate) fn print_framing<W: Write>(to: &mut W, call: &[u8], out: &mut [u8]) -> io::Result<()> {
    let count = byte(call, COUNT);
    let mut state = saved_framer(call);
    for index in ROOM..count {
        state = feed_piece(to, word(call, index + 1), state, out)?;
    }
    print_digest(to, NOTHING, out)?;
    print_flush(to, call, state, out)?;
    print_digest(to, SPACE, out)
}

// The state that the first two arguments are.
fn saved_framer(call: &[u8]) -> Framer {
    let mut held = [0; 256];
    let _ = copy(word(call, 1), &mut held);
    Framer {
        held,
        length: number(call, 2),
    }
}

// Feeds a piece until all of it is used, or no string comes.
fn feed_piece<W: Write>(
    to: &mut W,
    piece: &[u8],
    saved: Framer,
    out: &mut [u8],
) -> io::Result<Framer> {
    let mut state = saved;
    let mut from = 0;
    // By the bytes that each feed uses: no `for`.
    loop {
        let fed = framer::feed(state, part(piece, from, piece.len()), out);
        let outcome = fed.outcome;
        state = fed.state;
        let Some(far) = print_fed(to, fed.used, outcome, out)? else {
            return Ok(state);
        };
        let next = from.wrapping_add(far);
        if next <= from {
            return Ok(state);
        }
        if piece.len() <= next {
            return Ok(state);
        }
        from = next;
    }
}

// The bytes used; the string, or that none is complete, or why none. How far on the next feed is, where a
// string came.
fn print_fed<W: Write>(
    to: &mut W,
    used: usize,
    outcome: Result<Option<usize>, Refusal>,
    out: &[u8],
) -> io::Result<Option<usize>> {
    print_number(to, NOTHING, used)?;
    let far = match outcome {
        Ok(Some(n)) => {
            print_bytes(to, SPACE, part(out, 0, n))?;
            Some(used)
        }
        Ok(None) => {
            say(to, PART)?;
            None
        }
        Err(refusal) => {
            say(to, SPACE)?;
            print_refusal(to, refusal)?;
            None
        }
    };
    say(to, COMMA)?;
    Ok(far)
}

// The bytes held, the string that a flush hands over, and how all of the state stands behind it.
fn print_flush<W: Write>(to: &mut W, call: &[u8], state: Framer, out: &mut [u8]) -> io::Result<()> {
    let held = state.held;
    print_bytes(to, SPACE, part(&held, 0, state.length))?;
    say(to, COMMA)?;
    let flushed = framer::flush(state, out);
    print_outcome(to, call, flushed.outcome, out)?;
    let last = flushed.state;
    let rest = last.held;
    print_number(to, COMMA, last.length)?;
    print_digest(to, SPACE, &rest)
}
