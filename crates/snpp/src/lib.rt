// An SNPP gateway (RFC 1861, level 1) in front of the journal: a session that is stepped line by
// line. What writes a journal out as such lines is `export`'s.
#![tactic(auto)]

pub mod answer;
mod command;
pub mod range;
mod reaction;
pub mod state;
pub mod step;

pub use export::write_out;
pub use state::{Settings, Stage, State, Stepped};
