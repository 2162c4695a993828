// The calls on whole runs of both ends over a list of line faults. The first five arguments are
// those of a conversation with the central.
use crate::answer::{print_bytes, print_digest, print_number, print_refusal};
use crate::argument::{number, text, word};
use crate::ends::{central_settings, device_settings};
use crate::names::{NOTHING, SPACE};
use call::Totals;
use line::Refusal;
use std::io;
use std::io::Write;

// Which argument the entry device's password is; its retry limit is the next.
const PASSWORD: u8 = 6;

// Which argument the journal's length is.
const LENGTH: u8 = 9;

// Which argument the faults are: the last before the job.
const FAULTS: u8 = 11;

// What comes of a run; and what both buffers hold after it: the verdicts byte for byte, the
// journal's by its digest.
pub(crate) fn print_run<W: Write>(
    to: &mut W,
    call: &[u8],
    pagers: &[u32],
    journal: &mut [u8],
    verdicts: &mut [u8],
) -> io::Result<()> {
    let ran = call::run::run(
        text(call),
        device_settings(call, PASSWORD),
        central_settings(call),
        pagers,
        journal,
        number(call, LENGTH),
        word(call, FAULTS),
        verdicts,
    );
    print_ran(to, ran)?;
    print_bytes(to, SPACE, verdicts)?;
    print_digest(to, SPACE, journal)
}

fn print_ran<W: Write>(to: &mut W, ran: Result<Totals, Refusal>) -> io::Result<()> {
    match ran {
        Ok(totals) => {
            print_number(to, NOTHING, totals.transmissions)?;
            print_number(to, SPACE, totals.journal)
        }
        Err(refusal) => print_refusal(to, refusal),
    }
}
