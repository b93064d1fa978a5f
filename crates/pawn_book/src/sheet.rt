//! The items of a day's sheet: the visits of the day, and the pledges whose period ends on it.
ghost use Rattle.pawn_book.specs.Sheet.{part_head};
ghost use Rattle.std.specs.Prelude.{◌≡◌};

use pawn_pledge::Number;

/// A line of a day's sheet, after its heading.
#[derive(Clone, Copy, PartialEq, Eq)]
pub enum SheetItem {
    /// A window with confirmed bookings, and their number. The bookings follow.
    Window { window: u64, count: u64 },
    /// The pledge of a confirmed booking.
    Confirmed(Number),
    /// The number of bookings that are asked for the day. The bookings follow.
    AskedHead(u64),
    /// The pledge of a booking that is asked for, and its window.
    Asked { number: Number, window: u64 },
    /// The number of pledges whose period ends on the day, except those that are redeemed or sold. The pledges follow.
    EndsHead(u64),
    /// A pledge whose period ends on the day.
    Ends(Number),
}

/// A part of a day's sheet: the confirmed bookings of a window, the bookings that are asked for, or the pledges whose
/// period ends.
#[derive(Clone, Copy)]
pub enum SheetPart {
    Confirmed { window: u64 },
    Asked,
    Ends,
}

impl SheetPart {
    /// The first item of the part, with the number of items that follow it.
    pub fn heading(self, count: u64) -> SheetItem
        ensures value { result ≡ part_head self count }
    {
        match self {
            SheetPart::Confirmed { window } => SheetItem::Window { window, count },
            SheetPart::Asked => SheetItem::AskedHead(count),
            SheetPart::Ends => SheetItem::EndsHead(count),
        }
    }
}
