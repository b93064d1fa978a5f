//! Reads the rows of a book's pledges range by range, and passes them to a visitor.
ghost use Rattle.pawn_table_keeper.specs.Common.{Database, flat_map, get, pledge_in, pledges_of};
ghost use Rattle.pawn_table_keeper.specs.Exports.{AddsKind, AreKindPages, number_rows, numbers_from, page_or_book_rows};
ghost use Rattle.pawn_table_keeper.specs.Handing.{Hands, ReadsOfBook};
ghost use Rattle.pawn_book.specs.Items.{rows_of_pledges};
ghost use Rattle.pawn_tables.specs.Kinds.{IsKindPage, IsListPage, item_end, kind_rows_if_any};
ghost use Rattle.pawn_tables.specs.Pages.{page_end};
ghost use Rattle.std.specs.Prelude.{◌≡◌, ◌++◌, ◌∷◌, [], IfErr, IfOk, OnOk};
ghost use Rattle.pawn_book.specs.declared.fault.KeepError.TheVariants as Keeper;

use super::handing::{hand_all, hand_items};
use super::{BEYOND, TOO_MANY, TableKeep};
use one_table::know_settled;
use pawn_book::{Flow, Keep, KeepError, Number, RowItem, Visitor};
use pawn_debt::MOST_ENTRIES;
use pawn_tables::{KindPage, PAGE_ROWS, RANGE, RowKind, kind_page, list_page};
use sqlite::Alter;
use std::alloc::AllocError;

/// All kinds of rows, in the order of an export.
const ROW_KINDS: [RowKind; 5] = [
    RowKind::Pledge,
    RowKind::Secret,
    RowKind::Entry,
    RowKind::Extension,
    RowKind::Booking,
];

impl<S: Alter> TableKeep<S> {
    /// The rows of one kind of the pledges after number `above`: at most a page of them, and of 32 pledges.
    fn kind_above(&mut self, book: Number, kind: RowKind, above: u32) -> Result<KindPage, KeepError>
        ensures states { ReadsOfBook S.Store self.old self.new book result (λ h page. (page.kind ≡ kind) × IsKindPage above (get h.books book) page) }
    {
        know_settled(&self.conn);
        let mut tx = self.conn.transaction();
        let page = kind_page(&mut tx, self.alloc, book.get(), kind, above);
        tx.rollback();
        page
    }

    /// The rows of these kinds of the pledges after number `above`.
    fn kinds_above(
        &mut self,
        book: Number,
        kinds: &[RowKind],
        above: u32,
    ) -> Result<Vec<KindPage>, KeepError>
        ensures states { ReadsOfBook S.Store self.old self.new book result (λ h pages. AreKindPages kinds.now above (get h.books book) pages.items) }
    {
        let mut pages = Vec::new(self.alloc);
        for index in 0..kinds.len() {
            let kind = kinds[index];
            self.add_kind(book, kind, above, &mut pages)?;
        }
        Ok(pages)
    }

    /// Adds the rows of one kind of the pledges after number `above`.
    fn add_kind(
        &mut self,
        book: Number,
        kind: RowKind,
        above: u32,
        pages: &mut Vec<KindPage>,
    ) -> Result<(), KeepError>
        ensures states { ReadsOfBook S.Store self.old self.new book result
            (λ h u. AddsKind kind above (get h.books book) pages.old.items pages.new.items) }
    {
        let page = self.kind_above(book, kind, above)?;
        match push_page(pages, page) {
            Ok(()) => Ok(()),
            Err(_) => Err(KeepError::Memory),
        }
    }

    /// A page of a pledge's list of this kind, from a place on.
    fn list_from(
        &mut self,
        book: Number,
        kind: RowKind,
        number: Number,
        from: u32,
    ) -> Result<Vec<RowItem>, KeepError>
        ensures states { ReadsOfBook S.Store self.old self.new book result
            (λ h page. IsListPage kind from (pledge_in (get h.books book) number) page.items) }
    {
        know_settled(&self.conn);
        let mut tx = self.conn.transaction();
        let page = list_page(&mut tx, self.alloc, book.get(), kind, number, from);
        tx.rollback();
        page
    }

    /// Passes the rows of a pledge's list of this kind to the visitor until it answers `Stop`.
    fn hand_list<V: Visitor<RowItem>>(
        &mut self,
        book: Number,
        kind: RowKind,
        number: Number,
        visitor: &mut V,
    ) -> Result<Flow, KeepError>
        ensures hands { Hands S.Store book V.step self.old self.new visitor.old visitor.new result
            (λ h. kind_rows_if_any kind (pledge_in (get h.books book) number)) }
    {
        let mut from = 0;
        for turn in 0..MOST_ENTRIES + 1 {
            let page = self.list_from(book, kind, number, from)?;
            let rows: &[RowItem] = &page;
            match hand_all(rows, visitor) {
                Flow::Go => {}
                Flow::Stop => return Ok(Flow::Stop),
            }
            if rows.len() < PAGE_ROWS {
                return Ok(Flow::Go);
            }
            from = behind_items(from, rows)?;
        }
        Err(TOO_MANY)
    }

    /// Passes the rows of the page's kind of pledge `number` to the visitor until it answers `Stop`: those of the page
    /// if it has them all, or else those of the tables.
    fn hand_kind<V: Visitor<RowItem>>(
        &mut self,
        book: Number,
        number: u32,
        page: &KindPage,
        visitor: &mut V,
    ) -> Result<Flow, KeepError>
        ensures hands { Hands S.Store book V.step self.old self.new visitor.old visitor.new result
            (λ h. page_or_book_rows number (get h.books book) page.now) }
    {
        if number <= page.whole {
            return Ok(hand_items(number, &page.items, visitor));
        }
        let Some(number) = Number::new(u64::from(number)) else {
            return Err(BEYOND);
        };
        self.hand_list(book, page.kind, number, visitor)
    }

    /// Passes the rows of pledge `number` to the visitor, kind by kind, until it answers `Stop`.
    fn hand_pledge<V: Visitor<RowItem>>(
        &mut self,
        book: Number,
        number: u32,
        pages: &[KindPage],
        visitor: &mut V,
    ) -> Result<Flow, KeepError>
        ensures hands { Hands S.Store book V.step self.old self.new visitor.old visitor.new result
            (λ h. flat_map (page_or_book_rows number (get h.books book)) pages.now) }
    {
        for page in pages {
            match self.hand_kind(book, number, page, visitor)? {
                Flow::Go => {}
                Flow::Stop => return Ok(Flow::Stop),
            }
        }
        Ok(Flow::Go)
    }

    /// Passes the rows of the 32 pledges after number `above` to the visitor until it answers `Stop`.
    fn hand_range<V: Visitor<RowItem>>(
        &mut self,
        book: Number,
        above: u32,
        visitor: &mut V,
    ) -> Result<Flow, KeepError>
        ensures hands { Hands S.Store book V.step self.old self.new visitor.old visitor.new result
            (λ h. flat_map (number_rows (get h.books book)) (numbers_from above RANGE)) }
    {
        let pages = self.kinds_above(book, &ROW_KINDS, above)?;
        for step in 0..RANGE {
            let Some(number) = above.checked_add(step + 1) else {
                return Err(BEYOND);
            };
            match self.hand_pledge(book, number, &pages, visitor)? {
                Flow::Go => {}
                Flow::Stop => return Ok(Flow::Stop),
            }
        }
        Ok(Flow::Go)
    }

    /// Passes the rows of a book's pledges to the visitor until it answers `Stop`.
    pub(super) fn hand_rows<V: Visitor<RowItem>>(
        &mut self,
        book: Number,
        visitor: &mut V,
    ) -> Result<Flow, KeepError>
        ensures hands { Hands S.Store book V.step self.old self.new visitor.old visitor.new result (λ h. rows_of_pledges (pledges_of (get h.books book))) }
    {
        let Some(head) = self.book_head(book)? else {
            return Ok(Flow::Go);
        };
        let Ok(count) = u32::try_from(head.pledges) else {
            return Err(BEYOND);
        };
        for range in 0..count / RANGE + 1 {
            match self.hand_range(book, range * RANGE, visitor)? {
                Flow::Go => {}
                Flow::Stop => return Ok(Flow::Stop),
            }
        }
        Ok(Flow::Go)
    }
}

/// Adds a page at the end. The only error is out of memory.
fn push_page(pages: &mut Vec<KindPage>, page: KindPage) -> Result<(), AllocError>
    ensures value { OnOk result (pages.new.items ≡ pages.old.items ++ page ∷ []) }
{
    pages.push(page)?;
    Ok(())
}

/// Where the next page of a list begins, or `from` if the page is empty. `BEYOND` if 32 bits cannot hold it.
fn behind_items(from: u32, page: &[RowItem]) -> Result<u32, KeepError>
    ensures value { IfOk result (λ n. n ≡ page_end item_end from page.now) }
    ensures beyond { IfErr result (λ e. e ≡ Keeper.Store Database) }
{
    let next = match page.last() {
        None => return Ok(from),
        Some(RowItem::Entry { entry, .. }) => entry.seq.saturating_add(1),
        Some(RowItem::Secret { place, .. }) => *place,
        Some(RowItem::Extension { place, .. }) => *place,
        Some(RowItem::Pledge(_)) => 0,
        Some(RowItem::Booking { .. }) => 0,
    };
    match u32::try_from(next) {
        Ok(n) => Ok(n),
        Err(_) => Err(BEYOND),
    }
}
