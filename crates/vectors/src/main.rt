// Makes calls on the proved functions, which standard input has a line each, and prints what comes
// of each on a line. `tools/vectors.py` writes the calls, with the answers that documents 01 and 02
// have to them, and says how a call is written.
#![tactic(auto)]

mod answer;
mod argument;
mod calls;
mod deletion;
mod driver;
mod ends;
mod framing;
mod gateway;
mod names;
mod remarks;
mod runs;

ghost use Rattle.std.specs.Prelude.{◌≡◌, ◌≤◌, length, IfOk, vec_len};

use line::character::LF;
use std::alloc::{AllocError, Global};
use std::io;
use std::io::{BufWriter, Read, Write};

fn main(rt: HostRuntime) -> io::Result<()> {
    let mut input = buffer(rt.alloc())?;
    let n = read_full(&mut rt.reader(), &mut input)?;
    let mut to = BufWriter::new(rt.alloc(), io::writer(&rt))?;
    run(&mut to, &input[..n])?;
    to.flush()
}

// Room for all of the input, on the heap. The `ensures` gives only the length, which lending it needs.
fn buffer(alloc: Global) -> Result<Vec<u8>, AllocError>
    ensures { IfOk result (λ v. 2097152 ≡ vec_len v) }
{
    vec![in alloc; 0; 2097152]
}

// Reads until the buffer is full or the input ends. How many bytes it put at the start of the buffer.
fn read_full<R: Read>(from: &mut R, buf: &mut [u8]) -> io::Result<usize>
    ensures { IfOk result (λ n. n ≤ length buf.new) }
{
    let mut done = 0;
    // By the bytes that each read brings: no `for`.
    while done < buf.len() {
        let n = from.read(&mut buf[done..])?;
        if n == 0 {
            break;
        }
        done += n;
    }
    Ok(done)
}

// Every line of the input.
fn run<W: Write>(to: &mut W, input: &[u8]) -> io::Result<()> {
    for line in input.split_inclusive(|&b| b == LF) {
        print_answer(to, line.strip_suffix(&[LF]).unwrap_or(line))?;
    }
    Ok(())
}

// The answer to one call, on a line.
fn print_answer<W: Write>(to: &mut W, line: &[u8]) -> io::Result<()> {
    let mut call = calls::filled(0);
    argument::decode(line, &mut call);
    calls::print_answer(to, &call)?;
    names::say(to, names::LINE_END)
}
