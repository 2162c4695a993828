// Whether settings, pager list and saved state are in range.
ghost use Rattle.std.specs.Prelude.{◌&&◌, ◌≡◌, ◌≤◌, ltb, length};
ghost use Rattle.central.specs.Lent.{state_of};
ghost use Rattle.central.specs.Step.{failures_in_range, length_in_range, pagers_in_range, settings_in_range, state_in_range};

use crate::state::{Control, Settings, Stage};
use line::character::{Class, are};
use line::password::is_password;
use line::setting::MOST_RETRIES;
use line::transaction::MOST_INFORMATION;

// The least that the longest transaction may be.
pub const LEAST_LONGEST: usize = 3;

// The most pager numbers.
pub const MOST_PAGERS: usize = 1000;

// Every pager number is below this one.
pub const PAGER_NUMBERS: u32 = 100000000;

// Settings, pager list and saved state are in range.
pub(crate) fn in_range(settings: Settings, pagers: &[u32], control: Control, pending: &[u8]) -> bool
    requires { length pending.now ≡ 2000 }
    ensures { result ≡
        (settings_in_range settings && pagers_in_range pagers.now &&
        state_in_range settings (state_of control pending.now)) }
{
    pagers_in_range(pagers) && is_kept(settings, control, pending)
}

// Settings and saved state are in range.
pub(crate) fn is_kept(settings: Settings, control: Control, pending: &[u8]) -> bool
    requires { length pending.now ≡ 2000 }
    ensures { result ≡ (settings_in_range settings && state_in_range settings (state_of control pending.now)) }
{
    settings_in_range(settings) && state_in_range(settings, control, pending)
}

// A password, the longest transaction 3 to 2,000 characters, and the retry limit at most 9.
pub fn settings_in_range(settings: Settings) -> bool
    ensures { result ≡ settings_in_range settings }
{
    is_password(settings.password)
        && LEAST_LONGEST <= settings.longest
        && settings.longest <= MOST_INFORMATION
        && settings.retries <= MOST_RETRIES
}

// At most 1,000 numbers of at most eight digits. A loop of its own: `line::test::every` is of bytes.
pub fn pagers_in_range(pagers: &[u32]) -> bool
    ensures { result ≡ pagers_in_range pagers.now }
{
    if MOST_PAGERS < pagers.len() {
        return false;
    }
    let mut every = true;
    for &n in pagers {
        every &= is_number(n);
    }
    every
}

// A pager number of at most eight digits.
fn is_number(n: u32) -> bool
    ensures { result ≡ ltb n 100000000 }
{
    n < PAGER_NUMBERS
}

fn state_in_range(settings: Settings, control: Control, pending: &[u8]) -> bool
    requires { settings.longest ≤ length pending.now }
    ensures { result ≡ state_in_range settings (state_of control pending.now) }
{
    failures_in_range(control.stage, settings.retries, control.failures)
        && length_in_range(control.stage, settings.longest, control.length)
        && are(&pending[..control.length], Class::Textual)
}

fn failures_in_range(stage: Stage, most: usize, n: usize) -> bool
    ensures { result ≡ failures_in_range stage most n }
{
    match stage {
        Stage::Logon | Stage::Block => n <= most,
        Stage::Idle | Stage::Closed => n == 0,
    }
}

fn length_in_range(stage: Stage, most: usize, n: usize) -> bool
    ensures { result ≡ length_in_range stage most n }
{
    match stage {
        Stage::Block => n <= most,
        Stage::Idle | Stage::Logon | Stage::Closed => n == 0,
    }
}
