//! Reads a day's sheet from the tables, in pages.
#![tactic(auto, using(crate::proofs::StatementFinds::unread))]

ghost use Rattle.pawn_tables.specs.Common.{get, pledges_of, part_items, IsUnsoundAt, Lends};
ghost use Rattle.pawn_tables.specs.Finding.{FindsBy};
ghost use Rattle.pawn_tables.specs.Lines.{IsLinesPage, NamesWindows};
ghost use Rattle.std.specs.Prelude.{◌≡◌, is_ok, length};
ghost use Rattle.pawn_book.specs.declared.sheet.SheetPart.TheVariants as part_of;

use crate::books::confirmed_in;
use crate::heads::only_count;
use crate::line::Line;
use crate::lines::{read_lines, read_numbers};
use crate::queries::run_query;
use crate::texts::{
    COUNT_ASKED, COUNT_ENDS, READ_ASKED_PAGE, READ_CONFIRMED_PAGE, READ_ENDS_PAGE, READ_WINDOWS,
};
use pawn_book::{Day, KeepError, SheetPart, StoreFault};
use pawn_debt::Rows;
use sqlite::{Alter, Transaction, params};
use std::alloc::Global;

/// How many items a part of a day's sheet has, without its heading. The error is `Database` if the part's window does
/// not fit in 32 bits, and `NoRecord` only if the book is not sound.
pub fn count_in<S: Alter>(
    tx: &mut Transaction<'_, S>,
    book: u32,
    day: Day,
    part: SheetPart,
) -> Result<u64, KeepError>
    ensures finds { FindsBy S.Store tx.old.conn tx.new.conn (IsUnsoundAt book) result
        (λ h count. count ≡ length (part_items part day (pledges_of (get h.books book)))) }
    ensures lent { Lends S.Store tx.old.conn tx.new.conn (is_ok result) }
{
    let count = day.count();
    match part {
        SheetPart::Confirmed { window } => confirmed_in(tx, book, day, window),
        SheetPart::Asked => {
            let asked = run_query(tx, COUNT_ASKED, params![book, count])?;
            only_count(&asked)
        }
        SheetPart::Ends => {
            let ends = run_query(tx, COUNT_ENDS, params![book, count])?;
            only_count(&ends)
        }
    }
}

/// The windows of a day that have a confirmed booking, each once, in any order. The error is `NoRecord` only if the
/// book is not sound.
pub fn windows_in<S: Alter>(
    tx: &mut Transaction<'_, S>,
    alloc: Global,
    book: u32,
    day: Day,
) -> Result<Rows<u64>, KeepError>
    ensures finds { FindsBy S.Store tx.old.conn tx.new.conn (IsUnsoundAt book) result (λ h windows. NamesWindows day (pledges_of (get h.books book)) windows) }
    ensures lent { Lends S.Store tx.old.conn tx.new.conn (is_ok result) }
{
    let day = day.count();
    let rows = run_query(tx, READ_WINDOWS, params![book, day])?;
    read_numbers(alloc, &rows)
}

/// A page of the lines of a part of a day's sheet: the first of those whose pledge has a number greater than `above`.
/// The error is `Database` if the part's window does not fit in 32 bits, and `NoRecord` only if the book is not sound.
pub fn lines_page<S: Alter>(
    tx: &mut Transaction<'_, S>,
    alloc: Global,
    book: u32,
    day: Day,
    part: SheetPart,
    above: u32,
) -> Result<Rows<Line>, KeepError>
    ensures finds { FindsBy S.Store tx.old.conn tx.new.conn (IsUnsoundAt book) result
        (λ h page. IsLinesPage part day above (pledges_of (get h.books book)) page) }
    ensures lent { Lends S.Store tx.old.conn tx.new.conn (is_ok result) }
{
    let day = day.count();
    match part {
        SheetPart::Confirmed { window } => {
            let Ok(slot) = u32::try_from(window) else {
                return Err(KeepError::Store(StoreFault::Database));
            };
            let rows = run_query(tx, READ_CONFIRMED_PAGE, params![book, above, day, slot])?;
            read_lines(alloc, SheetPart::Confirmed { window }, &rows)
        }
        SheetPart::Asked => {
            let asked = run_query(tx, READ_ASKED_PAGE, params![book, above, day])?;
            read_lines(alloc, SheetPart::Asked, &asked)
        }
        SheetPart::Ends => {
            let ends = run_query(tx, READ_ENDS_PAGE, params![book, above, day])?;
            read_lines(alloc, SheetPart::Ends, &ends)
        }
    }
}
