//! The limits of debts.

/// The largest sum that may be lent, drawn or repaid, in pence: a million pounds.
pub const MOST_PENCE: u64 = 100_000_000;

/// The most entries that a debt may have.
pub const MOST_ENTRIES: usize = 9_999;

/// A penny, in millionths of it.
pub(crate) const PENNY: u64 = 1_000_000;

/// The upper bound of the charges on a debt, in millionths of a penny.
pub const MOST_MILLIONTHS: u64 = 1_000_000_000_000_000_000;
