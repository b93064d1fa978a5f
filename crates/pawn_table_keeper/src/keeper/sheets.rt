//! Reads a day's sheet in pages, and passes its items to a visitor.
ghost use Rattle.pawn_table_keeper.specs.Common.{get, pledges_of, day_sheet, part_items, window_sheet, windows_sheet};
ghost use Rattle.pawn_table_keeper.specs.Common.{with_head, IsLinesPage, NamesWindows, page_end};
ghost use Rattle.pawn_table_keeper.specs.Handing.{Hands, ReadsOfBook};
ghost use Rattle.pawn_table_keeper.specs.Windows.{named_sheet, named_sheets};
ghost use Rattle.std.specs.Prelude.{◌≡◌, length};

use super::handing::{hand_lines, hand_whole};
use super::{TOO_MANY, TableKeep};
use one_table::know_settled;
use pawn_book::{Day, Flow, KeepError, MOST_PLEDGES, Number, SheetItem, SheetPart, Visitor};
use pawn_debt::Rows;
use pawn_pledge::LAST_WINDOW;
use pawn_tables::{Line, PAGE_ROWS, count_in, lines_page, windows_in};
use sqlite::Alter;

impl<S: Alter> TableKeep<S> {
    /// How many items a part of a day's sheet has, without its heading.
    fn count_part(&mut self, book: Number, day: Day, part: SheetPart) -> Result<u64, KeepError>
        ensures states { ReadsOfBook S.Store self.old self.new book result (λ h count. count ≡ length (part_items part day (pledges_of (get h.books book)))) }
    {
        know_settled(&self.conn);
        let mut tx = self.conn.transaction();
        let count = count_in(&mut tx, book.get(), day, part);
        tx.rollback();
        count
    }

    /// A page of a part's lines: those of the pledges with numbers greater than `above`.
    fn lines_above(
        &mut self,
        book: Number,
        day: Day,
        part: SheetPart,
        above: u32,
    ) -> Result<Rows<Line>, KeepError>
        ensures states { ReadsOfBook S.Store self.old self.new book result (λ h page. IsLinesPage part day above (pledges_of (get h.books book)) page) }
    {
        know_settled(&self.conn);
        let mut tx = self.conn.transaction();
        let page = lines_page(&mut tx, self.alloc, book.get(), day, part, above);
        tx.rollback();
        page
    }

    /// Passes a part's items to the visitor until it answers `Stop`.
    fn hand_part<V: Visitor<SheetItem>>(
        &mut self,
        book: Number,
        day: Day,
        part: SheetPart,
        visitor: &mut V,
    ) -> Result<Flow, KeepError>
        ensures hands { Hands S.Store book V.step self.old self.new visitor.old visitor.new result (λ h. part_items part day (pledges_of (get h.books book))) }
    {
        let mut above = 0;
        for turn in 0..MOST_PLEDGES + 1 {
            let page = self.lines_above(book, day, part, above)?;
            match hand_lines(part, page.as_slice(), visitor) {
                Flow::Go => {}
                Flow::Stop => return Ok(Flow::Stop),
            }
            if page.len() < PAGE_ROWS {
                return Ok(Flow::Go);
            }
            above = behind_lines(above, page.as_slice());
        }
        Err(TOO_MANY)
    }

    /// Passes a part's heading and then its items to the visitor, until it answers `Stop`. The number of the items is
    /// counted by a query.
    fn hand_counted<V: Visitor<SheetItem>>(
        &mut self,
        book: Number,
        day: Day,
        part: SheetPart,
        visitor: &mut V,
    ) -> Result<Flow, KeepError>
        ensures hands { Hands S.Store book V.step self.old self.new visitor.old visitor.new result
            (λ h. with_head part (part_items part day (pledges_of (get h.books book)))) }
    {
        let count = self.count_part(book, day, part)?;
        let heading = part.heading(count);
        match visitor.visit(&heading) {
            Flow::Go => self.hand_part(book, day, part, visitor),
            Flow::Stop => Ok(Flow::Stop),
        }
    }

    /// Passes a part's heading and then its items to the visitor, until it answers `Stop`. If the first page is not
    /// full, it has all items, and no query counts them.
    fn hand_headed<V: Visitor<SheetItem>>(
        &mut self,
        book: Number,
        day: Day,
        part: SheetPart,
        visitor: &mut V,
    ) -> Result<Flow, KeepError>
        ensures hands { Hands S.Store book V.step self.old self.new visitor.old visitor.new result
            (λ h. with_head part (part_items part day (pledges_of (get h.books book)))) }
    {
        let page = self.lines_above(book, day, part, 0)?;
        if page.len() < PAGE_ROWS {
            return Ok(hand_whole(part, page.as_slice(), visitor));
        }
        self.hand_counted(book, day, part, visitor)
    }

    /// Passes a window's heading and items to the visitor until it answers `Stop`; nothing if the window has no
    /// confirmed booking.
    fn hand_window<V: Visitor<SheetItem>>(
        &mut self,
        book: Number,
        day: Day,
        window: u64,
        visitor: &mut V,
    ) -> Result<Flow, KeepError>
        ensures hands { Hands S.Store book V.step self.old self.new visitor.old visitor.new result
            (λ h. window_sheet (pledges_of (get h.books book)) day window) }
    {
        let part = SheetPart::Confirmed { window };
        let page = self.lines_above(book, day, part, 0)?;
        if page.is_empty() {
            return Ok(Flow::Go);
        }
        if page.len() < PAGE_ROWS {
            return Ok(hand_whole(part, page.as_slice(), visitor));
        }
        self.hand_counted(book, day, part, visitor)
    }

    /// The windows of a day that have a confirmed booking, each once, in any order.
    fn windows_on(&mut self, book: Number, day: Day) -> Result<Rows<u64>, KeepError>
        ensures states { ReadsOfBook S.Store self.old self.new book result (λ h windows. NamesWindows day (pledges_of (get h.books book)) windows) }
    {
        know_settled(&self.conn);
        let mut tx = self.conn.transaction();
        let windows = windows_in(&mut tx, self.alloc, book.get(), day);
        tx.rollback();
        windows
    }

    /// Passes a window's heading and items to the visitor until it answers `Stop`, if the window is among `windows`.
    fn hand_named<V: Visitor<SheetItem>>(
        &mut self,
        book: Number,
        day: Day,
        windows: &[u64],
        window: u64,
        visitor: &mut V,
    ) -> Result<Flow, KeepError>
        ensures hands { Hands S.Store book V.step self.old self.new visitor.old visitor.new result
            (λ h. named_sheet windows.now (pledges_of (get h.books book)) day window) }
    {
        if windows.contains(&window) {
            self.hand_window(book, day, window, visitor)
        } else {
            Ok(Flow::Go)
        }
    }

    /// Passes the headings and items of these windows to the visitor, in the order of the windows, until it answers
    /// `Stop`.
    fn hand_these<V: Visitor<SheetItem>>(
        &mut self,
        book: Number,
        day: Day,
        windows: &[u64],
        visitor: &mut V,
    ) -> Result<Flow, KeepError>
        ensures hands { Hands S.Store book V.step self.old self.new visitor.old visitor.new result
            (λ h. named_sheets windows.now (pledges_of (get h.books book)) day) }
    {
        for window in 0..LAST_WINDOW + 1 {
            match self.hand_named(book, day, windows, window, visitor)? {
                Flow::Go => {}
                Flow::Stop => return Ok(Flow::Stop),
            }
        }
        Ok(Flow::Go)
    }

    /// Passes the headings and items of all windows to the visitor until it answers `Stop`. Only windows that have a
    /// confirmed booking are read.
    fn hand_windows<V: Visitor<SheetItem>>(
        &mut self,
        book: Number,
        day: Day,
        visitor: &mut V,
    ) -> Result<Flow, KeepError>
        ensures hands { Hands S.Store book V.step self.old self.new visitor.old visitor.new result (λ h. windows_sheet (pledges_of (get h.books book)) day) }
    {
        let windows = self.windows_on(book, day)?;
        self.hand_these(book, day, windows.as_slice(), visitor)
    }

    /// Passes a day's sheet to the visitor until it answers `Stop`: the windows, then the visits that are asked, then
    /// the pledges whose period ends.
    pub(super) fn hand_sheet<V: Visitor<SheetItem>>(
        &mut self,
        book: Number,
        day: Day,
        visitor: &mut V,
    ) -> Result<Flow, KeepError>
        ensures hands { Hands S.Store book V.step self.old self.new visitor.old visitor.new result (λ h. day_sheet (pledges_of (get h.books book)) day) }
    {
        match self.hand_windows(book, day, visitor)? {
            Flow::Go => {}
            Flow::Stop => return Ok(Flow::Stop),
        }
        match self.hand_headed(book, day, SheetPart::Asked, visitor)? {
            Flow::Go => {}
            Flow::Stop => return Ok(Flow::Stop),
        }
        self.hand_headed(book, day, SheetPart::Ends, visitor)
    }
}

/// The number after which the next page of lines begins: that of the last line, or `above` if the page is empty.
fn behind_lines(above: u32, page: &[Line]) -> u32
    ensures value { result ≡ page_end (λ l. l.number) above page.now }
{
    match page.last() {
        Some(line) => line.number.get(),
        None => above,
    }
}
