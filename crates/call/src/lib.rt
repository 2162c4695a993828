// A call: both ends over a list of line faults.
#![tactic(auto)]

mod exchange;
mod fault;
mod range;
pub mod run;
mod setup;

pub use run::Totals;
