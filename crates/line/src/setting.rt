// Limits of the settings that both ends have.

// The highest retry limit of an end.
pub const MOST_RETRIES: usize = 9;
