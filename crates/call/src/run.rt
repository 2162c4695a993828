// The run of both ends over a list of line faults. `Ready` is a record of facts already.
ghost use Rattle.std.specs.Prelude.{◌≡◌};
ghost use Rattle.std.proofs.Math.ListN as ListN;
ghost use Rattle.call.specs.Call.{Runs, called, setup};
ghost use Rattle.call.specs.Inner.{Begins, Plays, Ready, ends_of, inputs_in, setup_of};

use crate::exchange::{Saved, exchange};
use crate::fault::fault_at;
use crate::range::test;
use crate::setup::Setup;
use central::lent::start as start_central;
use device::settling::settle;
use device::step::start as start_device;
use device::{Standing, Verdict};
use line::Refusal;
use line::answer::count;
use line::transaction::MOST_INFORMATION;

// What a run comes to: the strings that the device put out, and the journal's new length.
#[derive(Clone, Copy)]
pub struct Totals {
    pub transmissions: usize,
    pub journal: usize,
}

// Runs a job, a journal lent at its exact length, against the central whose journal of this length
// lies at the start of the buffer. Each fault is 3 times what becomes of a string plus what becomes
// of its answer: 0 whole, 1 garbled, 2 lost; past the end of the list all is whole. The verdict
// buffer has one byte for each transaction.
pub fn run(
    job: &[u8],
    device: device::Settings,
    central: central::Settings,
    pagers: &[u32],
    journal: &mut [u8],
    length: usize,
    faults: &[u8],
    verdicts: &mut [u8],
) -> Result<Totals, Refusal>
    ensures { Runs
        (called (setup device central pagers.now job.now)
        journal.old length faults.now (ListN.length verdicts.old))
        result
        journal.old journal.new
        verdicts.old verdicts.new }
{
    let setup = Setup {
        job,
        device,
        central,
        pagers,
    };
    let count = test(setup, journal, length, faults)?;
    if verdicts.len() != count {
        return Err(Refusal::Size);
    }
    Ok(begin(setup, journal, length, faults, verdicts))
}

// The run, once it may begin: the device at its first string, which is not refused, the central at
// Idle, every verdict unsent.
fn begin(
    setup: Setup<'_>,
    journal: &mut [u8],
    length: usize,
    faults: &[u8],
    verdicts: &mut [u8],
) -> Totals
    requires { Ready (setup_of setup) journal.old length verdicts.old }
    ensures { Plays
        (inputs_in (setup_of setup.entry) journal.old length)
        (ends_of (setup_of setup.entry) journal.old length faults.now)
        result journal.old journal.new verdicts.new }
{
    verdicts.fill(u8::from(Verdict::Unsent));
    let mut pending = [0u8; MOST_INFORMATION];
    let mut memory = [0u8; 256];
    let started = start_device(setup.device, setup.job, &mut memory);
    let first = Saved {
        device: started.state,
        central: start_central(length),
        count: count(started.outcome),
        standing: Standing::Open,
    };
    play(
        setup,
        first,
        journal,
        faults,
        &mut pending,
        &mut memory,
        verdicts,
    )
}

// Transmission after transmission, until the device has stopped and puts out no string; then the
// verdicts are settled as it says.
fn play(
    setup: Setup<'_>,
    first: Saved,
    journal: &mut [u8],
    faults: &[u8],
    pending: &mut [u8],
    memory: &mut [u8],
    verdicts: &mut [u8],
) -> Totals
    requires { Begins (setup_of setup) first
        journal.old pending.old memory.old verdicts.old }
    ensures { Plays
        (inputs_in (setup_of setup.entry) journal.old first.central.journal)
        (ends_of (setup_of setup.entry) journal.old first.central.journal faults.now)
        result journal.old journal.new verdicts.new }
{
    let mut ends = first;
    // It counts the strings, which the answer tells, and the faults may end before them: no `for` over
    // the faults. The loop ends where the device puts out no string.
    let mut transmissions = 0;
    while 0 < ends.count {
        let fault = fault_at(faults, transmissions);
        ends = exchange(setup, ends, fault, journal, pending, memory, verdicts);
        transmissions += 1;
    }
    settle(ends.standing, verdicts);
    Totals {
        transmissions,
        journal: ends.central.journal,
    }
}
