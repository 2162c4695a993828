// The public functions under C names, as include/tyntolai.h declares them: numbers in the place of
// enums, and states and settings as plain records.
#![tactic(auto)]

pub mod answer;
pub mod centrals;
pub mod deletions;
pub mod devices;
pub mod framers;
pub mod gateways;
pub mod journals;
pub mod password;
pub mod remarks;
pub mod replies;
pub mod run;
pub mod settling;
pub mod text;
pub mod way;
