// What every part of the TAP link stands on: the characters of the line, even parity, legal
// transactions, and the numbered refusals.
#![tactic(auto)]

pub mod answer;
pub mod character;
pub mod memory;
pub mod parity;
pub mod password;
pub mod setting;
pub mod test;
pub mod transaction;

pub use answer::Refusal;
pub use password::Password;
