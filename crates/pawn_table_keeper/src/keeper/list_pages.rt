//! Reads the lists of a pledge in pages, and passes their elements to a visitor.
ghost use Rattle.pawn_table_keeper.specs.Common.{get, pledge_in, entries_of, extensions_of, Database};
ghost use Rattle.pawn_table_keeper.specs.Common.{page_end, page_behind};
ghost use Rattle.pawn_table_keeper.specs.Handing.{Hands, ReadsOfBook};
ghost use Rattle.pawn_tables.specs.Entries.{IsEntriesPage, behind};
ghost use Rattle.std.specs.Prelude.{◌≡◌, IfErr, IfOk};
ghost use Rattle.pawn_book.specs.declared.fault.KeepError.TheVariants as Keeper;

use super::handing::hand_all;
use super::{BEYOND, TOO_MANY, TableKeep};
use one_table::know_settled;
use pawn_book::{Entry, Extension, Flow, KeepError, Number, Visitor};
use pawn_debt::{Entries, MOST_ENTRIES};
use pawn_pledge::{Extensions, MOST_EXTENSIONS};
use pawn_tables::{PAGE_ROWS, entries_page, extensions_page};
use sqlite::Alter;

/// How many elements a full page has, as a 32-bit number.
const PLACES: u32 = PAGE_ROWS as u32;

impl<S: Alter> TableKeep<S> {
    /// A page of a pledge's entries: those numbered `from` or more.
    fn entries_from(
        &mut self,
        book: Number,
        number: Number,
        from: u32,
    ) -> Result<Entries, KeepError>
        ensures states { ReadsOfBook S.Store self.old self.new book result
            (λ h page. IsEntriesPage from (entries_of (pledge_in (get h.books book) number)) page) }
    {
        know_settled(&self.conn);
        let mut tx = self.conn.transaction();
        let page = entries_page(&mut tx, self.alloc, book.get(), number.get(), from);
        tx.rollback();
        page
    }

    /// Passes the entries of a pledge to the visitor until it answers `Stop`. Each page begins after the number of the
    /// last entry of the page before, so a gap in the numbers does not end the walk.
    pub(super) fn hand_entries<V: Visitor<Entry>>(
        &mut self,
        book: Number,
        number: Number,
        visitor: &mut V,
    ) -> Result<Flow, KeepError>
        ensures hands { Hands S.Store book V.step self.old self.new visitor.old visitor.new result (λ h. entries_of (pledge_in (get h.books book) number)) }
    {
        let mut from = 0;
        for turn in 0..MOST_ENTRIES + 1 {
            let page = self.entries_from(book, number, from)?;
            match hand_all(page.as_slice(), visitor) {
                Flow::Go => {}
                Flow::Stop => return Ok(Flow::Stop),
            }
            if page.len() < PAGE_ROWS {
                return Ok(Flow::Go);
            }
            from = behind_entries(from, page.as_slice())?;
        }
        Err(TOO_MANY)
    }

    /// A page of a pledge's extensions: those at places greater than `behind`.
    fn extensions_behind(
        &mut self,
        book: Number,
        number: Number,
        behind: u32,
    ) -> Result<Extensions, KeepError>
        ensures states { ReadsOfBook S.Store self.old self.new book result
            (λ h page. page ≡ page_behind behind (extensions_of (pledge_in (get h.books book) number))) }
    {
        know_settled(&self.conn);
        let mut tx = self.conn.transaction();
        let page = extensions_page(&mut tx, self.alloc, book.get(), number.get(), behind);
        tx.rollback();
        page
    }

    /// Passes the extensions of a pledge to the visitor until it answers `Stop`.
    pub(super) fn hand_extensions<V: Visitor<Extension>>(
        &mut self,
        book: Number,
        number: Number,
        visitor: &mut V,
    ) -> Result<Flow, KeepError>
        ensures hands { Hands S.Store book V.step self.old self.new visitor.old visitor.new result (λ h. extensions_of (pledge_in (get h.books book) number)) }
    {
        for turn in 0..MOST_EXTENSIONS as u32 + 1 {
            let page = self.extensions_behind(book, number, turn * PLACES)?;
            match hand_all(page.as_slice(), visitor) {
                Flow::Go => {}
                Flow::Stop => return Ok(Flow::Stop),
            }
            if page.len() < PAGE_ROWS {
                return Ok(Flow::Go);
            }
        }
        Err(TOO_MANY)
    }
}

/// The number at which the next page of entries begins: one more than the last entry's, or `from` if the page is empty.
/// `BEYOND` if 32 bits cannot hold it.
fn behind_entries(from: u32, page: &[Entry]) -> Result<u32, KeepError>
    ensures value { IfOk result (λ n. n ≡ page_end behind from page.now) }
    ensures beyond { IfErr result (λ e. e ≡ Keeper.Store Database) }
{
    let Some(last) = page.last() else {
        return Ok(from);
    };
    let Some(next) = last.seq.checked_add(1) else {
        return Err(BEYOND);
    };
    match u32::try_from(next) {
        Ok(n) => Ok(n),
        Err(_) => Err(BEYOND),
    }
}
