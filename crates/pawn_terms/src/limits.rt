//! The limits of days and terms.

/// The number of 2000-01-01, counted from 1970-01-01.
pub(crate) const FIRST_DAY: u32 = 10_957;

/// The number of 2199-12-31, the last day that a request may name.
pub const LAST_REQUEST_DAY: u32 = 84_005;

/// The number of 2299-12-31.
pub(crate) const FINAL_DAY: u32 = 120_529;

/// The highest rate of interest, in millionths per day.
pub(crate) const MOST_RATE: u64 = 20_000;

/// The highest charge for safe keeping, in millionths of a penny per day.
pub(crate) const MOST_KEEP: u64 = 10_000_000;
