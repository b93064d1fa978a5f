//! `Reply`, the answers to requests that are not refused.

use pawn_pledge::{Done, Number, Receipt};

/// The answer to a request that is not refused.
#[derive(Clone, Copy, PartialEq, Eq)]
pub enum Reply {
    /// The book with this number exists, with the requested key, name and capacity.
    BookMade(Number),
    /// The book has the terms under this version.
    TermsPut(u64),
    /// The import has filled the book, with this number of pledges.
    BookFilled(u64),
    /// The pledge was taken, now or by an equal request before. This is its first receipt.
    Opened(Receipt),
    /// The answer to a command on the pledge with this number.
    Commanded { number: Number, done: Done },
}
