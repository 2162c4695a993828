// The central's settings, its saved state, and what a step answers.
use line::{Password, Refusal};

#[derive(Clone, Copy)]
pub struct Settings {
    pub password: Password,
    // The longest transaction, 3 to 2,000.
    pub longest: usize,
    // How many failures in a row are answered by NAK, 0 to 9.
    pub retries: usize,
}

#[derive(Clone, Copy, Debug, PartialEq, Eq)]
pub enum Stage {
    // Nobody calls.
    Idle,
    // The caller has been asked who calls.
    Logon,
    // The caller sends blocks.
    Block,
    // The call is over; the line has not been dropped yet.
    Closed,
}

#[derive(Clone, Copy)]
pub struct State {
    pub stage: Stage,
    // Failures in a row.
    pub failures: usize,
    // The unfinished information and its length; what stands behind it is free. There is no heap, so no `Vec`.
    pub pending: [u8; 2000],
    pub length: usize,
    // The length of the journal.
    pub journal: usize,
}

// The bytes put out, or the refusal; and the state behind the step. A refusal hands the state back
// too: no `Result` round both.
#[derive(Clone, Copy)]
pub struct Stepped {
    pub outcome: Result<usize, Refusal>,
    pub state: State,
}

// A state whose unfinished information lies in lent memory, of this length at its start.
#[derive(Clone, Copy)]
pub struct Control {
    pub stage: Stage,
    pub failures: usize,
    pub length: usize,
    pub journal: usize,
}

// The same as `Stepped`, beside lent memory, and no `Result` round both for the same reason.
#[derive(Clone, Copy)]
pub struct Moved {
    pub outcome: Result<usize, Refusal>,
    pub control: Control,
}
