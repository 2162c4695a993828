// The run of both ends as C has it.
ghost use Rattle.std.specs.Prelude.{◌≡◌};
ghost use Rattle.std.proofs.Math.ListN as ListN;
ghost use Rattle.line.specs.Answer.{outcome_of};
ghost use Rattle.call.specs.Call.{called};
ghost use Rattle.abi.specs.Run.{CallRuns, setup_of, totals_in};
ghost use Rattle.abi.specs.Settings.{of_settings};

use crate::centrals::CentralSettings;
use crate::devices::DeviceSettings;
use call::Totals;
use call::run::run;
use line::Refusal;

// The strings that the device put out, the journal's new length, and document 01's number.
#[repr(C)]
#[derive(Clone, Copy)]
pub struct RunTotals {
    pub transmissions: usize,
    pub journal: usize,
    pub code: u8,
}

// Runs a job against the central over a list of line faults.
#[unsafe(no_mangle)]
pub extern "C" fn tyntolai_run(
    job: &[u8],
    device: DeviceSettings,
    central: CentralSettings,
    pagers: &[u32],
    journal: &mut [u8],
    length: usize,
    faults: &[u8],
    verdicts: &mut [u8],
) -> RunTotals
    ensures { CallRuns
        (of_settings device
        (called (setup_of device central pagers.now job.now)
        journal.old length faults.now (ListN.length verdicts.old)))
        result
        journal.old journal.new
        verdicts.old verdicts.new }
{
    match device::Settings::try_from(device) {
        Ok(device) => RunTotals::from(run(
            job,
            device,
            central::Settings::from(central),
            pagers,
            journal,
            length,
            faults,
            verdicts,
        )),
        Err(refusal) => RunTotals::from(Err(refusal)),
    }
}

impl From<Result<Totals, Refusal>> for RunTotals {
    ghost from_gives = { λ ran totals. totals ≡ totals_in (outcome_of ran) };

    fn from(ran: Result<Totals, Refusal>) -> RunTotals {
        match ran {
            Ok(totals) => RunTotals {
                transmissions: totals.transmissions,
                journal: totals.journal,
                code: 0,
            },
            Err(refusal) => RunTotals {
                transmissions: 0,
                journal: 0,
                code: u8::from(refusal),
            },
        }
    }
}
