//! The keeper `ListKeep`, and its implementation of `Keep`.
ghost use Rattle.pawn_book.specs.Sound.{IsSound};
ghost use Rattle.pawn_list_keeper.specs.Common.{CanSave};
ghost use Rattle.pawn_list_keeper.specs.Listed.{SavesListed, host_of};
ghost use Rattle.std.specs.Prelude.{◌≡◌, ◌≤◌, [], map};

use crate::kept::Kept;
use crate::list_reads::{
    bound, brief_in, confirmed_count, entries_in, extensions_in, hand, head_in, next_number,
    number_in, pledge_copy, pledges_in, terms_in,
};
use crate::row_items::hand_rows;
use crate::saving::{make_change, rows_with};
use crate::sheet::hand_sheet;
use pawn_book::{
    BookHead, Brief, Change, Day, Entry, Extension, Keep, KeepError, MOST_ROWS, Number, Pledge,
    Reference, RowItem, SaveError, SheetItem, Terms, Visitor,
};
use std::alloc::Global;
use std::marker::Model;

/// A keeper that has its books in a list in memory, in the order in which they were made. Its only errors are `Memory`
/// and, for a save, `Full`. In contracts its value is the books with their numbers, and the limit on their rows.
#[derive(Drop)]
pub struct ListKeep {
    alloc: Global,
    books: Vec<Kept>,
    rows: u64,
    limit: u64,
}

impl Model for ListKeep {
    ghost use Rattle.pawn_list_keeper.specs.Books.{Books};
    ghost use Rattle.std.specs.Prelude.{map};

    ghost Value = { Books };

    ghost use Rattle.pawn_list_keeper.specs.Listed.{listed_book, IsListed};

    ghost view = { λ k. record { books = map listed_book k.books.items; limit = k.limit } };

    ghost invariant = { λ k. IsListed (record { books = map listed_book k.books.items; limit = k.limit })
        k.rows };
}

impl ListKeep {
    /// A keeper without books, whose books may have `limit` rows together. The limit is at most 10,000,000
    /// (`MOST_ROWS`).
    pub fn new(alloc: Global, limit: u64) -> ListKeep
        requires few { limit ≤ MOST_ROWS }
        ensures empty { result ≡ record { books = []; limit = limit } }
    {
        ListKeep {
            alloc,
            books: Vec::new(alloc),
            rows: 0,
            limit,
        }
    }

    /// Proves that the host of the list is sound. The body only reads a field, which makes the invariant known.
    fn know_sound(&self)
        ensures sound { IsSound (host_of self.now) }
    {
        let _ = &self.rows;
    }

    /// Makes a change. Answers `Full` if there would be more rows than the limit, and `Memory` if out of memory. After
    /// an error the books are as before.
    fn make(&mut self, change: &Change) -> Result<(), SaveError>
        requires can_save { CanSave (host_of self.old) change.now }
        ensures saves { SavesListed self.old change.now result self.new }
        ensures sound { IsSound (host_of self.new) }
    {
        let rows = rows_with(&self.books, self.rows, change);
        if rows > u128::from(self.limit) {
            return Err(SaveError::Full);
        }
        let alloc = self.alloc;
        match make_change(alloc, &mut self.books, change) {
            Ok(()) => {}
            Err(_) => return Err(SaveError::Memory),
        }
        self.rows = rows as u64;
        Ok(())
    }
}

impl Keep for ListKeep {
    ghost use Rattle.pawn_list_keeper.specs.Listed.{list_keeping};

    ghost keeping = { list_keeping };

    fn book_head(&mut self, book: Number) -> Result<Option<BookHead>, KeepError> {
        let Ok(head) = head_in(&self.books, book) else {
            return Err(KeepError::Memory);
        };
        Ok(head)
    }

    fn terms(&mut self, book: Number, version: u64) -> Result<Option<Terms>, KeepError> {
        let terms = terms_in(&self.books, book, version);
        Ok(terms)
    }

    fn pledge(&mut self, book: Number, number: Number) -> Result<Option<Pledge>, KeepError> {
        let Ok(pledge) = pledge_copy(&self.books, book, number) else {
            return Err(KeepError::Memory);
        };
        Ok(pledge)
    }

    fn find_ref(
        &mut self,
        book: Number,
        reference: &Reference,
    ) -> Result<Option<Number>, KeepError> {
        let number = number_in(&self.books, book, reference);
        Ok(number)
    }

    fn confirmed_count(&mut self, book: Number, day: Day, window: u64) -> Result<u64, KeepError> {
        let count = confirmed_count(pledges_in(&self.books, book), day, window);
        Ok(count as u64)
    }

    fn walk<V: Visitor<Pledge>>(&mut self, book: Number, visitor: &mut V) -> Result<(), KeepError> {
        hand(pledges_in(&self.books, book), visitor);
        Ok(())
    }

    fn next_book(&mut self, after: Option<Number>) -> Result<Option<Number>, KeepError> {
        let next = next_number(&self.books, bound(after));
        Ok(next)
    }

    fn brief(&mut self, book: Number, number: Number) -> Result<Option<Brief>, KeepError> {
        let Ok(brief) = brief_in(&self.books, book, number) else {
            return Err(KeepError::Memory);
        };
        Ok(brief)
    }

    fn further_brief(
        &mut self,
        book: Number,
        number: Number,
        _known: &Brief,
    ) -> Result<Option<Brief>, KeepError> {
        self.brief(book, number)
    }

    fn entries<V: Visitor<Entry>>(
        &mut self,
        book: Number,
        number: Number,
        visitor: &mut V,
    ) -> Result<(), KeepError> {
        hand(entries_in(&self.books, book, number), visitor);
        Ok(())
    }

    fn extensions<V: Visitor<Extension>>(
        &mut self,
        book: Number,
        number: Number,
        visitor: &mut V,
    ) -> Result<(), KeepError> {
        hand(extensions_in(&self.books, book, number), visitor);
        Ok(())
    }

    fn sheet_each<V: Visitor<SheetItem>>(
        &mut self,
        book: Number,
        day: Day,
        visitor: &mut V,
    ) -> Result<(), KeepError> {
        hand_sheet(day, pledges_in(&self.books, book), visitor);
        Ok(())
    }

    fn rows_each<V: Visitor<RowItem>>(
        &mut self,
        book: Number,
        visitor: &mut V,
    ) -> Result<(), KeepError> {
        let Ok(()) = hand_rows(self.alloc, pledges_in(&self.books, book), visitor) else {
            return Err(KeepError::Memory);
        };
        Ok(())
    }

    fn rows(&mut self) -> Result<u64, KeepError> {
        Ok(self.rows)
    }

    fn save(&mut self, change: &Change) -> Result<(), SaveError> {
        self.know_sound();
        self.make(change)
    }

    ghost use Rattle.pawn_book.specs.Sound.{IsSound};
    ghost use Rattle.pawn_list_keeper.specs.Listed.{host_of};
    ghost use Rattle.std.proofs.Common.{refl, subst, sym};

    ghost whole_is_sound = { record { stands = λ k sound. (host_of k, sound, refl); left = λ k sound h is. subst IsSound (sym is) sound } };
}
