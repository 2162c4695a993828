// Blocks of the TAP protocol: the checksum, and writing and reading a block.
#![tactic(auto)]

pub mod checksum;
pub mod frame;

pub use frame::Ending;
