//! The rows of a book's pledges, one by one, in the order of an export.
ghost use Rattle.pawn_book.specs.Items.{item_number};
ghost use Rattle.std.specs.Prelude.{◌≡◌};

use pawn_pledge::{Booking, Closing, Day, Entry, Extension, Issued, Number, Opening};

/// A pledge's own row: what was agreed when it was taken, and its present state, without its lists and its booking.
#[derive(Drop)]
pub struct PledgeItem {
    /// The pledge's number in its book.
    pub number: Number,
    /// What was agreed when the pledge was taken. Sums are in pence.
    pub opening: Opening,
    /// The day on which the pledge was taken.
    pub taken: Day,
    /// The version of the book's terms that applies to the pledge.
    pub version: u64,
    /// The day number of the end of the period.
    pub ends: u64,
    /// Whether the pledge is on hold.
    pub held: bool,
    /// The day of the last change.
    pub last: Day,
    /// Whether the pledge is open, redeemed or sold.
    pub closing: Closing,
}

/// A row of a pledge: its own, or that of a secret, an entry, an extension or its booking. Places are counted from 1.
#[derive(Drop)]
pub enum RowItem {
    Pledge(PledgeItem),
    Secret {
        number: Number,
        place: u64,
        issued: Issued,
    },
    Entry {
        number: Number,
        entry: Entry,
    },
    Extension {
        number: Number,
        place: u64,
        extension: Extension,
    },
    Booking {
        number: Number,
        booking: Booking,
    },
}

impl RowItem {
    /// The number of the pledge to which the row belongs.
    pub fn number(&self) -> Number
        ensures value { result ≡ item_number self.now }
    {
        match self {
            RowItem::Pledge(pledge) => pledge.number,
            RowItem::Secret { number, .. } => *number,
            RowItem::Entry { number, .. } => *number,
            RowItem::Extension { number, .. } => *number,
            RowItem::Booking { number, .. } => *number,
        }
    }
}
