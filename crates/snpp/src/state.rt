// The gateway's settings, its saved state, and what a step answers.
use line::Refusal;

#[derive(Clone, Copy)]
pub struct Settings {
    // The longest transaction, 3 to 2,000.
    pub longest: usize,
}

#[derive(Clone, Copy, PartialEq, Eq)]
pub enum Stage {
    // No message has been entered.
    Open,
    // A message has.
    Entered,
    // The session is over.
    Closed,
}

#[derive(Clone, Copy)]
pub struct State {
    pub stage: Stage,
    // The pager ID that was entered last, and how many digits it has. Zeros stand behind it.
    pub pager: [u8; 8],
    // 0 where there is no pager ID: a saved record that C has, so no `Option`.
    pub digits: usize,
    // The message and its length. Zeros stand behind it. There is no heap, so no `Vec`.
    pub message: [u8; 2043],
    pub length: usize,
}

// The bytes put out, or the refusal; the state behind the step, and the journal's length.
#[derive(Clone, Copy)]
pub struct Stepped {
    // Beside the state, not around it: a refusal hands the state back.
    pub outcome: Result<usize, Refusal>,
    pub state: State,
    pub journal: usize,
}

// A state whose message lies in lent memory.
#[derive(Clone, Copy)]
pub struct Control {
    pub stage: Stage,
    pub pager: [u8; 8],
    pub digits: usize,
    pub length: usize,
}
