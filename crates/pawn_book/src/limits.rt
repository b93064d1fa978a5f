//! The limits of books.

/// The highest capacity of a book: the most bookings that it confirms in one window of a day.
pub const MOST_BOOKINGS: u32 = 1_000;

/// The most bytes that a book's name may have.
pub const MOST_NAME_BYTES: usize = 60;

/// The most receipts that may be presented at once.
pub const MOST_RECEIPTS: usize = 32;

/// The highest limit on rows that a host may have.
pub const MOST_ROWS: u64 = 10_000_000;

/// The most versions of terms that a book may have.
pub const MOST_TERMS: u64 = 99;

/// The most pledges that a book may have.
pub const MOST_PLEDGES: u64 = 1_000_000;
