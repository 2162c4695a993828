// The journal of stored transactions (document 01's book): records, each with its length behind it,
// and a trailer that points back. A buffer and the length in use are two arguments: C and a file hand
// them over so.
#![tactic(auto)]

pub mod buffer;
pub mod cursor;
pub mod held;
pub mod record;

pub use cursor::{Place, Position};
pub use held::Cursor;
pub use record::{Extent, Located};
