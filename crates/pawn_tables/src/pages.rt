//! Reads the lists of a pledge in pages, so that a long list is never in memory as a whole.
#![tactic(auto, using(crate::proofs::StatementFinds::unread))]

ghost use Rattle.pawn_tables.specs.Common.{get, pledge_in, entries_of, extensions_of, IsUnsoundAt, Lends};
ghost use Rattle.pawn_tables.specs.Entries.{IsEntriesPage};
ghost use Rattle.pawn_tables.specs.Finding.{FindsBy};
ghost use Rattle.pawn_tables.specs.Places.{page_behind};
ghost use Rattle.std.specs.Prelude.{◌≡◌, is_ok};

use crate::list_decoding::{read_entries, read_extensions};
use crate::queries::run_query;
use crate::texts::{READ_ENTRIES_PAGE, READ_EXTENSIONS_PAGE};
use pawn_book::KeepError;
use pawn_debt::Entries;
use pawn_pledge::Extensions;
use sqlite::{Alter, Transaction, params};
use std::alloc::Global;

/// The largest number of rows of a page. A page with fewer rows is the last of its list.
pub const PAGE_ROWS: usize = 64;

/// A page of the entries of a pledge: the first of those that are numbered `from` or more. The error is `NoRecord` only
/// if the book is not sound.
pub fn entries_page<S: Alter>(
    tx: &mut Transaction<'_, S>,
    alloc: Global,
    book: u32,
    number: u32,
    from: u32,
) -> Result<Entries, KeepError>
    ensures finds { FindsBy S.Store tx.old.conn tx.new.conn (IsUnsoundAt book) result
        (λ h page. IsEntriesPage from (entries_of (pledge_in (get h.books book) number)) page) }
    ensures lent { Lends S.Store tx.old.conn tx.new.conn (is_ok result) }
{
    let rows = run_query(tx, READ_ENTRIES_PAGE, params![book, number, from])?;
    read_entries(alloc, &rows)
}

/// A page of the extensions of a pledge: the first of those at places greater than `behind`. The first place is 1. The
/// error is `NoRecord` only if the book is not sound.
pub fn extensions_page<S: Alter>(
    tx: &mut Transaction<'_, S>,
    alloc: Global,
    book: u32,
    number: u32,
    behind: u32,
) -> Result<Extensions, KeepError>
    ensures finds { FindsBy S.Store tx.old.conn tx.new.conn (IsUnsoundAt book) result
        (λ h page. page ≡ page_behind behind (extensions_of (pledge_in (get h.books book) number))) }
    ensures lent { Lends S.Store tx.old.conn tx.new.conn (is_ok result) }
{
    let rows = run_query(tx, READ_EXTENSIONS_PAGE, params![book, number, behind])?;
    read_extensions(alloc, &rows)
}
