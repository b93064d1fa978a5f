//! The counts of a check.
/// How much a store has.
#[derive(Clone, Copy, PartialEq, Eq)]
pub struct Counts {
    /// How many books there are.
    pub books: u64,
    /// How many pledges all books have.
    pub pledges: u64,
    /// How many counted rows there are: one for each book, version of terms, pledge, entry, secret and booking.
    pub rows: u64,
}

/// How many pledges and how many counted rows one book has. The book's own row is counted.
#[derive(Clone, Copy)]
pub struct BookCounts {
    pub pledges: u64,
    pub rows: u64,
}
