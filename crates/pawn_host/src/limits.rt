//! The limits of a session.

/// The most requests that a session answers.
pub const MOST_REQUESTS: u32 = 1_000;

/// The most reads that a session makes.
pub const MOST_READS: u32 = 100_000;
