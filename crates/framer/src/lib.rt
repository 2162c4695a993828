// A framer: from the bytes that a wire brings, a few at a time, the strings that the central's Block
// stage is given. What a byte is goes by its low seven bits; strings come out as they came in.
#![tactic(auto)]

mod kind;

ghost use Rattle.std.specs.Prelude.{true, [], ◌++◌, ◌≡◌, ◌+◌, ◌^◌, ◌<◌, ◌≤◌};
ghost use Rattle.std.proofs.Math.ListN as ListN;
ghost use Rattle.line.specs.Answer.{done};
ghost use Rattle.framer.specs.Framing as Framing;
ghost use Rattle.framer.specs.Inner.{Begun, later, refusing};
ghost use Rattle.framer.specs.State.{Feeds, Flushes, fed_to, flushed, in_range, state_of};

use crate::kind::Kind;
use line::Refusal;
use line::character::{EOT, STX};
use line::memory::copy;
use line::test::{Is, every, seek};

// The longest string, and the least room that an output has.
pub const STRING: usize = 256;

// How many characters stand in a block from its ending on.
const TAIL: usize = 5;

// The bytes held, as they came, and zeros behind them. An array with its length beside: there is no heap, and C has this record.
#[repr(C)]
#[derive(Clone, Copy)]
pub struct Framer {
    pub held: [u8; 256],
    pub length: usize,
}

// The length of the string that lies at the start of the output, nothing while none is complete, or
// the refusal; how many bytes were used; and the state behind them, which a refusal hands back too.
#[derive(Clone, Copy)]
pub struct Fed {
    pub outcome: Result<Option<usize>, Refusal>,
    pub used: usize,
    pub state: Framer,
}

// The string put out, or the refusal; and the state behind it, which a refusal hands back too.
#[derive(Clone, Copy)]
pub struct Flushed {
    pub outcome: Result<usize, Refusal>,
    pub state: Framer,
}

// Nothing held.
pub fn start() -> Framer
    ensures { result ≡ state_of [] }
{
    Framer {
        held: [0; 256],
        length: 0,
    }
}

// Takes bytes up to the end of the first string that they complete, or all of them.
pub fn feed(state: Framer, bytes: &[u8], out: &mut [u8]) -> Fed
    ensures { Feeds
        (fed_to state bytes.now (ListN.length out.old))
        state result out.old out.new }
{
    if !is_in_range(&state) {
        return refuse(state, Refusal::Range);
    }
    if out.len() < STRING {
        return refuse(state, Refusal::Size);
    }
    if 0 < state.length {
        return go_on(&state.held[..state.length], bytes, 0, out);
    }
    begin(bytes, out)
}

// Nothing more came: what is held is handed over as it stands.
pub fn flush(state: Framer, out: &mut [u8]) -> Flushed
    ensures { Flushes
        (flushed state (ListN.length out.old))
        state result out.old out.new }
{
    if !is_in_range(&state) {
        return Flushed {
            outcome: Err(Refusal::Range),
            state,
        };
    }
    if out.len() < STRING {
        return Flushed {
            outcome: Err(Refusal::Size),
            state,
        };
    }
    let outcome = copy(&state.held[..state.length], out);
    let emptied = start();
    Flushed {
        outcome,
        state: emptied,
    }
}

// A refusal uses no byte and changes nothing.
fn refuse(state: Framer, refusal: Refusal) -> Fed
    ensures { result ≡ refusing state refusal }
{
    Fed {
        outcome: Err(refusal),
        used: 0,
        state,
    }
}

// Nothing is held: bytes before the first STX or EOT are skipped.
fn begin(bytes: &[u8], out: &mut [u8]) -> Fed
    requires { 256 ≤ ListN.length out.old }
    ensures { Feeds (done (Framing.fed [] bytes.now))
        (state_of []) result out.old out.new }
{
    let at = seek(bytes, 0, Kind::Opening);
    if bytes.len() <= at {
        return Fed {
            outcome: Ok(None),
            used: at,
            state: start(),
        };
    }
    let next = at + 1;
    go_on(&bytes[at..next], &bytes[next..], next, out)
}

// Bytes behind what is held of a string; so many were used before them.
// The 256 bytes of output are asked of a list that the definitions take whole.
fn go_on(held: &[u8], bytes: &[u8], before: usize, out: &mut [u8]) -> Fed
    requires { Begun held.now out.old × (before + ListN.length bytes.now < 2 ^ 63) }
    ensures { Feeds
        (done (later before (Framing.fed held.now bytes.now)))
        (state_of []) result out.old out.new }
{
    let n = held.len();
    let size = size(held, bytes);
    let wanted = size - n;
    if bytes.len() < wanted {
        return Fed {
            outcome: Ok(None),
            used: before + bytes.len(),
            state: hold(held, bytes),
        };
    }
    let _ = copy(held, out);
    let _ = copy(&bytes[..wanted], &mut out[n..]);
    Fed {
        outcome: Ok(Some(size)),
        used: before + wanted,
        state: start(),
    }
}

// Both are held, one behind the other. `go_on` and `central` have these two lines too, over other records.
fn hold(held: &[u8], bytes: &[u8]) -> Framer
    requires { ListN.length held.now + ListN.length bytes.now ≤ 256 }
    ensures { result ≡ state_of (held.now ++ bytes.now) }
{
    let n = held.len();
    let length = n + bytes.len();
    let mut array = start().held;
    array[..n].copy_from_slice(held);
    array[n..length].copy_from_slice(bytes);
    Framer {
        held: array,
        length,
    }
}

// How long the string is that begins with what is held and these bytes. An ending in what is held
// is among its last four.
fn size(held: &[u8], bytes: &[u8]) -> usize
    requires { (Framing.unfinished held.now ≡ true) × (1 ≤ ListN.length held.now) }
    ensures { result ≡ Framing.size (held.now ++ bytes.now) }
{
    if held[0] % 0x80 == EOT {
        return 2;
    }
    let n = held.len();
    let from = if n < TAIL { 1 } else { n - 4 };
    let end = seek(held, from, Kind::Ending);
    if end < n {
        return (end + TAIL).min(STRING);
    }
    let most = bytes.len().min(STRING - n);
    (n + seek(&bytes[..most], 0, Kind::Ending) + TAIL).min(STRING)
}

// The start can lead to the state.
fn is_in_range(state: &Framer) -> bool
    ensures { result ≡ in_range state.now }
{
    if STRING <= state.length {
        return false;
    }
    let (held, rest) = state.held.split_at(state.length);
    is_unfinished(held) & every(rest, Is { byte: 0 })
}

// Nothing, or the start of a string that goes on.
fn is_unfinished(held: &[u8]) -> bool
    ensures { result ≡ Framing.unfinished held.now }
{
    let n = held.len();
    if n == 0 {
        return true;
    }
    let first = held[0] % 0x80;
    if first == EOT {
        return n < 2;
    }
    if first != STX {
        return false;
    }
    if n < TAIL {
        return true;
    }
    (n < STRING) & every(&held[1..n - 4], Kind::Inner)
}
