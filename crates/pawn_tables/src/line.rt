//! A line of a day's sheet as the tables have it.
ghost use Rattle.pawn_tables.specs.Lines.{item_of};
ghost use Rattle.std.specs.Prelude.{◌≡◌};

use pawn_book::{Number, SheetItem, SheetPart};

/// A line of a part of a day's sheet: the number of a pledge, and the window of its booking, 0 to 15; the window is 0
/// for a period that ends.
#[derive(Clone, Copy)]
pub struct Line {
    pub number: Number,
    pub window: u64,
}

impl Line {
    /// The sheet's item for the line, in the part that the line belongs to.
    pub fn item(self, part: SheetPart) -> SheetItem
        ensures value { result ≡ item_of part self }
    {
        match part {
            SheetPart::Confirmed { .. } => SheetItem::Confirmed(self.number),
            SheetPart::Asked => SheetItem::Asked {
                number: self.number,
                window: self.window,
            },
            SheetPart::Ends => SheetItem::Ends(self.number),
        }
    }
}
