//! The rows of a book's text, with their columns as values.

use pawn_book::{Booking, Day, Entry, Extension, Issued, Opening, Rates};

/// The number of columns of each row.
pub(crate) const COLUMNS: usize = 15;

/// The header: the names of the columns, which are the first record of a text.
pub(crate) const HEADER: [&[u8]; COLUMNS] = [
    b"row", b"c1", b"c2", b"c3", b"c4", b"c5", b"c6", b"c7", b"c8", b"c9", b"c10", b"c11", b"c12",
    b"c13", b"c14",
];

/// The exclusive upper bound of the numbers in columns, which have at most 12 digits.
pub(crate) const NUMBERS_END: u64 = 1_000_000_000_000;

/// The version of a text's form. Version 1 has no rows for extensions.
#[derive(Clone, Copy)]
pub enum Version {
    /// Without rows for extensions.
    One,
    /// With rows for extensions. Exports are written in this version.
    Two,
}

/// How a pledge's own row states that the pledge was closed, or that it is open.
#[derive(Clone, Copy)]
pub enum ClosingWord {
    Open,
    Redeemed,
    Sold,
}

/// The columns of a pledge's own row. They need not agree with each other.
#[derive(Drop)]
pub struct PledgeColumns {
    /// The pledge's number in its book.
    pub number: u64,
    /// What was agreed when the pledge was taken. Sums are in pence.
    pub opening: Opening,
    /// The day on which the pledge was taken.
    pub taken: Day,
    /// The version of the book's terms that applies to the pledge.
    pub version: u64,
    /// Whether the pledge is on hold.
    pub held: bool,
    /// The day of the last change.
    pub last: Day,
    /// Whether the pledge is open, redeemed or sold.
    pub closing: ClosingWord,
    /// The day of the redemption or the sale.
    pub closing_day: Option<Day>,
    /// The sum that was paid at a redemption, or the net proceeds of a sale, in pence.
    pub amount: Option<u64>,
}

/// A row of a book's text, with its columns read.
#[derive(Drop)]
pub enum Row {
    /// The first row: how many versions of terms and how many pledges follow.
    Book {
        version: Version,
        terms: u64,
        pledges: u64,
    },
    /// A version of the book's terms.
    Terms {
        version: u64,
        rates: Rates,
    },
    /// A pledge. The rows of its lists follow it.
    Pledge(PledgeColumns),
    /// A secret of the pledge with that number, and its place from 1.
    Secret {
        number: u64,
        place: u64,
        issued: Issued,
    },
    /// An entry of the pledge with that number.
    Entry {
        number: u64,
        entry: Entry,
    },
    /// An extension of the pledge with that number, and its place from 1.
    Extension {
        number: u64,
        place: u64,
        extension: Extension,
    },
    /// The booking of the pledge with that number.
    Booking {
        number: u64,
        booking: Booking,
    },
}
