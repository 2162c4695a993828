// The central: what it does with each string that comes off the line.
#![tactic(auto)]

mod answer;
pub mod lent;
mod logon;
pub mod range;
mod reaction;
pub mod state;
pub mod step;

pub use state::{Control, Moved, Settings, Stage, State, Stepped};
