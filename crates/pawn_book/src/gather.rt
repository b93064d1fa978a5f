//! Collects in a list the items that a keeper passes to a visitor one by one.
ghost use Rattle.pawn_book.specs.Gathering.{Gathers};
ghost use Rattle.pawn_book.specs.Keeping.{Errs, Reads, pledges_of};
ghost use Rattle.pawn_book.specs.Sheet.{day_sheet};
ghost use Rattle.pawn_book.specs.Sound.{IsUnsoundAt};
ghost use Rattle.std.specs.FinMap.{get};
ghost use Rattle.std.specs.Prelude.{◌≡◌, IfOk};

use crate::fault::KeepError;
use crate::keep::Keep;
use crate::sheet::SheetItem;
use crate::visit::{Flow, Visitor};
use pawn_pledge::{Day, Number};
use std::alloc::Global;

/// A visitor that collects the items that it gets. When memory runs out, it sets `is_full` and stops.
#[derive(Drop)]
pub struct Gathering<T> {
    items: Vec<T>,
    is_full: bool,
}

impl<T: Copy> Visitor<T> for Gathering<T> {
    ghost step = { λ v item flow w. Gathers v item flow w };

    fn visit(&mut self, item: &T) -> Flow {
        match self.items.push(*item) {
            Ok(()) => Flow::Go,
            Err(_) => {
                self.is_full = true;
                Flow::Stop
            }
        }
    }
}

/// The items of a day's sheet in a book, in order. The list is that of a book without pledges if there is no such book.
pub fn day_sheet<K: Keep>(
    alloc: Global,
    keep: &mut K,
    book: Number,
    day: Day,
) -> Result<Vec<SheetItem>, KeepError>
    ensures reads { Reads K.keeping keep.old keep.new (λ h. IfOk result (λ items. items.items ≡ day_sheet (pledges_of (get h.books book)) day)) }
    ensures errs { Errs K.keeping keep.old keep.new (IsUnsoundAt book) result }
{
    let mut gathering = Gathering {
        items: Vec::new(alloc),
        is_full: false,
    };
    keep.sheet_each(book, day, &mut gathering)?;
    if gathering.is_full {
        return Err(KeepError::Memory);
    }
    Ok(gathering.items)
}
