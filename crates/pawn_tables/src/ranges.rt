//! Reads the rows of an export: kind by kind, of a range of pledges or page by page of one list.
#![tactic(auto, using(crate::proofs::StatementFinds::unread))]

ghost use Rattle.pawn_book.specs.declared.items.RowItem.{RowItem};
ghost use Rattle.pawn_tables.specs.Common.{IsUnsoundAt, Lends, get, last_element, pledge_in};
ghost use Rattle.pawn_tables.specs.Finding.{FindsBy};
ghost use Rattle.pawn_tables.specs.Kinds.{IsKindPage, IsListPage, whole_upto};
ghost use Rattle.std.specs.Prelude.{◌≡◌, is_ok, length};

use crate::kinds::{RowKind, read_items};
use crate::pages::PAGE_ROWS;
use crate::queries::run_query;
use crate::texts::{READ_ENTRIES_PAGE, READ_EXTENSIONS_PAGE, READ_SECRETS_PAGE};
use pawn_book::{KeepError, Number, RowItem, StoreFault};
use sqlite::{Alter, Transaction, params};
use std::alloc::Global;

/// How many pledges a range has. They have fewer own rows, and fewer bookings, than a page.
pub const RANGE: u32 = 32;

/// Rows of one kind of the pledges of a range: all of those up to number `whole`, and perhaps some of the next.
#[derive(Drop)]
pub struct KindPage {
    pub kind: RowKind,
    pub items: Vec<RowItem>,
    pub whole: u32,
}

/// Up to which number the rows of a range are whole: to its end, or to the pledge before that of the last row if the
/// page is full.
fn whole_upto(items: &[RowItem], upto: u32) -> u32
    ensures value { result ≡ whole_upto upto items.now }
{
    if items.len() < PAGE_ROWS {
        return upto;
    }
    match items.last() {
        Some(last) => last.number().get() - 1,
        None => upto,
    }
}

/// The rows of one kind of the pledges whose number is greater than `above`, of 32 of them and at most a page of rows.
/// The error is `NoRecord` only if the book is not sound.
pub fn kind_page<S: Alter>(
    tx: &mut Transaction<'_, S>,
    alloc: Global,
    book: u32,
    kind: RowKind,
    above: u32,
) -> Result<KindPage, KeepError>
    ensures finds { FindsBy S.Store tx.old.conn tx.new.conn (IsUnsoundAt book) result
        (λ h page. (page.kind ≡ kind) × IsKindPage above (get h.books book) page) }
    ensures lent { Lends S.Store tx.old.conn tx.new.conn (is_ok result) }
{
    let upto = above.saturating_add(RANGE);
    let rows = run_query(tx, kind.range_query(), params![book, above, upto])?;
    let items = read_items(alloc, kind, &None, &rows)?;
    let whole = whole_upto(&items, upto);
    Ok(KindPage { kind, items, whole })
}

/// A page of a pledge's list of this kind: the entries that are numbered `from` or more, or the secrets or extensions
/// at places greater than `from`. The error is `Database` for the other kinds, of which a pledge has one row at most,
/// and `NoRecord` only if the book is not sound.
pub fn list_page<S: Alter>(
    tx: &mut Transaction<'_, S>,
    alloc: Global,
    book: u32,
    kind: RowKind,
    number: Number,
    from: u32,
) -> Result<Vec<RowItem>, KeepError>
    ensures finds { FindsBy S.Store tx.old.conn tx.new.conn (IsUnsoundAt book) result
        (λ h page. IsListPage kind from (pledge_in (get h.books book) number) page.items) }
    ensures lent { Lends S.Store tx.old.conn tx.new.conn (is_ok result) }
{
    let given = Some(number);
    let number = number.get();
    match kind {
        RowKind::Secret => {
            let secrets = run_query(tx, READ_SECRETS_PAGE, params![book, number, from])?;
            read_items(alloc, RowKind::Secret, &given, &secrets)
        }
        RowKind::Entry => {
            let entries = run_query(tx, READ_ENTRIES_PAGE, params![book, number, from])?;
            read_items(alloc, RowKind::Entry, &given, &entries)
        }
        RowKind::Extension => {
            let extensions = run_query(tx, READ_EXTENSIONS_PAGE, params![book, number, from])?;
            read_items(alloc, RowKind::Extension, &given, &extensions)
        }
        RowKind::Pledge | RowKind::Booking => Err(KeepError::Store(StoreFault::Database)),
    }
}
