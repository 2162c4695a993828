// The entry device: what it sends, and what it makes of each reply.
#![tactic(auto)]

pub mod job;
pub mod range;
mod reaction;
mod remarks;
pub mod settling;
pub mod state;
pub mod step;
mod string;

pub use settling::Standing;
pub use state::{Confirmation, Given, Place, Report, Settings, State, Step, Stepped, Verdict};
