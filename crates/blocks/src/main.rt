// Reads lines from standard input and prints the blocks of each. What a line prints is
// `listing::list`; this program only moves bytes, in large pieces. The room of its
// output is asked of a list that the definitions take whole.
#![tactic(auto)]

ghost use Rattle.std.specs.Prelude.{List, [], ◌++◌, ◌≡◌, ℕ, ◌≤◌, length, take, IfOk, OnErr};
ghost use Rattle.line.specs.Answer.{Laid};
ghost use Rattle.listing.specs.Listing.{listing};
ghost use Rattle.blocks.specs.Lines.{Listed, Took, Within, finished, nothing, stand, stays};

use line::answer::count;
use line::character::LF;
use line::memory::find;
use listing::{ROOM, list};
use std::io;
use std::io::{Read, Write};

// The characters of a line that are kept. A line of so many is too long already, however many more
// follow.
const KEPT: usize = 2000;

// How many characters of the present line are kept, and how many bytes wait to be written.
#[derive(Clone, Copy)]
struct Filled {
    kept: usize,
    waiting: usize,
}

// Keeps as many more characters of the present line as there is room for.
fn keep(part: &[u8], line: &mut [u8], kept: usize) -> usize
    requires { kept ≤ length line.old }
    ensures { Laid
        (take (length line.old) (take kept line.old ++ part.now))
        result line.old line.new }
{
    let more = (line.len() - kept).min(part.len());
    let end = kept + more;
    line[kept..end].copy_from_slice(&part[..more]);
    end
}

// Prints what a line prints, behind what waits; writes that out first where there is no room. Where
// that fails, the buffer is as it was.
fn print<W: Write>(to: &mut W, line: &[u8], out: &mut [u8], waiting: usize) -> io::Result<usize>
    requires { (waiting ≤ length out.old) × (10248 ≤ length out.old) }
    ensures ok { IfOk result (λ n. Laid
        (stays (length out.old) (take waiting out.old) ++ listing line.now)
        n out.old out.new) }
    ensures err { OnErr result (out.new ≡ out.old) }
{
    let mut at = waiting;
    if out.len() < at + ROOM {
        to.write_all(&out[..at])?;
        at = 0;
    }
    Ok(at + count(list(line, &mut out[at..])))
}

// One piece of the input: each line that ends in it is printed, and the start of the next is kept.
// Of a write that fails nothing is known but that the memory keeps its size.
fn take<W: Write>(
    to: &mut W,
    piece: &[u8],
    line: &mut [u8],
    out: &mut [u8],
    filled: Filled,
) -> io::Result<Filled>
    requires { Within filled line.old out.old }
    ensures ok { IfOk result (λ now. Took
        piece.now
        line.old out.old line.new out.new filled now) }
    ensures err { OnErr result ((length line.new ≡ length line.old) × (length out.new ≡ length out.old)) }
{
    let mut kept = filled.kept;
    let mut waiting = filled.waiting;
    let mut at = 0;
    // From line to line and not byte by byte: no `for`.
    while at < piece.len() {
        let end = find(piece, at, LF);
        kept = keep(&piece[at..end], line, kept);
        at = end;
        if end < piece.len() {
            waiting = print(to, &line[..kept], out, waiting)?;
            kept = 0;
            at = end + 1;
        }
    }
    Ok(Filled { kept, waiting })
}

// Takes the input piece by piece, to its end. What is left is as if it were one text, which this
// contract does not name. A proved loop has to end, and nothing says that the input does, so the loop
// has as many turns as no run uses up.
fn take_all<R: Read, W: Write>(
    from: &mut R,
    to: &mut W,
    piece: &mut [u8],
    line: &mut [u8],
    out: &mut [u8],
) -> io::Result<Filled>
    requires { (length line.old ≡ 2000) × (10248 ≤ length out.old) }
    ensures ok { IfOk result (λ now. (text : List ℕ) × Took
        text
        line.old out.old line.new out.new nothing now) }
    ensures err { OnErr result ((length line.new ≡ length line.old) × (length out.new ≡ length out.old)) }
{
    let mut filled = Filled {
        kept: 0,
        waiting: 0,
    };
    for _ in 0..u64::MAX {
        let n = from.read(piece)?;
        if n == 0 {
            break;
        }
        filled = take(to, &piece[..n], line, out, filled)?;
    }
    Ok(filled)
}

// Prints the last line, where no LF ended it.
fn finish<W: Write>(to: &mut W, line: &[u8], out: &mut [u8], filled: Filled) -> io::Result<usize>
    requires { Within filled line.now out.old }
    ensures ok { IfOk result (λ n. Laid
        (finished (length out.old) (stand [] filled line.now out.old)).waits
        n out.old out.new) }
    ensures err { OnErr result (out.new ≡ out.old) }
{
    let kept = filled.kept;
    let waiting = filled.waiting;
    if 0 < kept {
        return print(to, &line[..kept], out, waiting);
    }
    Ok(waiting)
}

// Prints all lines of the input. How many bytes wait at the end, behind what was written out.
fn print_all<R: Read, W: Write>(from: &mut R, to: &mut W, out: &mut [u8]) -> io::Result<usize>
    requires { 10248 ≤ length out.old }
    ensures ok { IfOk result (λ waiting. Listed out.old out.new waiting) }
    ensures err { OnErr result (length out.new ≡ length out.old) }
{
    let mut piece = large_buffer();
    let mut line = [0u8; KEPT];
    let filled = take_all(from, to, &mut piece, &mut line, out)?;
    finish(to, &line, out, filled)
}

// Room for a large piece of what is read or written. The `ensures` gives only the length, which
// lending the array needs. `vectors` has the same: programs share no crate.
fn large_buffer() -> [u8; 65536]
    ensures { 65536 ≡ length result }
{
    [0; 65536]
}

fn main(rt: HostRuntime) -> io::Result<()> {
    let mut from = rt.reader();
    let mut to = io::writer(&rt);
    let mut out = large_buffer();
    let waiting = print_all(&mut from, &mut to, &mut out)?;
    to.write_all(&out[..waiting])
}
