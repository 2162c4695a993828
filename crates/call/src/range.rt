// The tests of a call.
ghost use Rattle.std.specs.Prelude.{◌≡◌};
ghost use Rattle.std.proofs.Math.ListN as ListN;
ghost use Rattle.line.specs.Answer.{map_done, outcome_of};
ghost use Rattle.call.specs.Call.{ends_in_range, tested};
ghost use Rattle.call.specs.Inner.{setup_of};

use crate::fault::are_faults;
use crate::setup::Setup;
use central::range::{pagers_in_range, settings_in_range as central_in_range};
use device::job::cuts_all;
use device::range::settings_in_range as device_in_range;
use journal::buffer::{check_in, is_buffer};
use journal::record::check;
use line::Refusal;

// How many transactions the job has, or why the call is refused; the verdict buffer is tested later.
pub(crate) fn test(
    setup: Setup<'_>,
    journal: &[u8],
    length: usize,
    faults: &[u8],
) -> Result<usize, Refusal>
    ensures { outcome_of result ≡ map_done (λ i. ListN.length i.job)
        (tested (setup_of setup.entry)
        journal.now length faults.now) }
{
    if !ends_in_range(setup.device, setup.central, setup.pagers) {
        return Err(Refusal::Range);
    }
    if !are_faults(faults) {
        return Err(Refusal::Range);
    }
    if !is_buffer(journal) {
        return Err(Refusal::Size);
    }
    let count = check(setup.job)?;
    check_in(journal, length)?;
    if !cuts_all(setup.device.way, setup.job) {
        return Err(Refusal::Length);
    }
    Ok(count)
}

// Both ends' settings and the pager list are in range.
fn ends_in_range(device: device::Settings, central: central::Settings, pagers: &[u32]) -> bool
    ensures { result ≡ ends_in_range device central pagers.now }
{
    device_in_range(device) && central_in_range(central) && pagers_in_range(pagers)
}
