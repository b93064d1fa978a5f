//! Reads the rows of a pledge table by table, and the terms of a book.
#![tactic(auto, using(crate::proofs::StatementFinds::unread, crate::proofs::StatementFinds::unread_debts))]

ghost use Rattle.pawn_tables.specs.Common.{get, state, HasCleanDisk, Shown, bound, pledge_in, entries_of};
ghost use Rattle.pawn_tables.specs.Common.{extensions_of, secrets_of, terms_of, terms_at, IsUnsoundAt, NoRecord, Lends};
ghost use Rattle.pawn_tables.specs.Finding.{FindsBy, FindsOf};
ghost use Rattle.pawn_tables.specs.PledgeRows.{booking_of, row_of, totals_in};
ghost use Rattle.pawn_tables.specs.StandsFor.{ListDebts};
ghost use Rattle.std.specs.Prelude.{◌≡◌, Err, IfOk, is_ok, option_map};
ghost use Rattle.pawn_book.specs.declared.fault.KeepError.TheVariants as Keeper;

use crate::cells::keeper_error;
use crate::list_decoding::{read_entries, read_extensions, read_secrets};
use crate::pledge_decoding::first_pledge;
use crate::records::{PledgeRow, first_booking, first_terms, first_totals};
use crate::texts::{
    READ_BOOKING, READ_ENTRIES, READ_EXTENSIONS, READ_PLEDGE, READ_SECRETS, READ_TERMS, READ_TOTALS,
};
use one_table::ask;
use pawn_book::{Booking, KeepError, Terms};
use pawn_debt::{Entries, Totals};
use pawn_pledge::{Extensions, Secrets};
use sqlite::{Alter, Row, Transaction, params};
use sqlite_value::value::ValueRef;
use std::alloc::Global;

/// Runs a query and returns its rows. The error is `Memory` or `Database`, never `NoRecord`: no row is decoded here.
pub(crate) fn run_query<S: Alter>(
    tx: &mut Transaction<'_, S>,
    sql: &str,
    params: &[ValueRef<'_>],
) -> Result<Vec<Row>, KeepError>
    ensures shown { HasCleanDisk (state S.Store tx.new.conn.now) → IfOk result
        (λ rows. Shown sql.now (bound params.now) (state S.Store tx.old.conn.now) (state S.Store tx.new.conn.now) rows.items) }
    ensures unread { result ≡ Err (Keeper.Store NoRecord) → ⊥ }
    ensures lent { Lends S.Store tx.old.conn tx.new.conn (is_ok result) }
{
    match ask(tx, sql, params) {
        Ok(rows) => Ok(rows),
        Err(error) => Err(keeper_error(error)),
    }
}

/// The entries of a pledge in order; none if there is no such pledge. The error is `NoRecord` only if the book is not
/// sound.
pub fn entries_in<S: Alter>(
    tx: &mut Transaction<'_, S>,
    alloc: Global,
    book: u32,
    number: u32,
) -> Result<Entries, KeepError>
    ensures finds { FindsBy S.Store tx.old.conn tx.new.conn (IsUnsoundAt book) result (λ h x. x ≡ entries_of (pledge_in (get h.books book) number)) }
    ensures debts { FindsOf ListDebts (IsUnsoundAt book) (state S.Store tx.old.conn.now) (state S.Store tx.new.conn.now) result
        (λ h x. x ≡ entries_of (pledge_in (get h.books book) number)) }
    ensures lent { Lends S.Store tx.old.conn tx.new.conn (is_ok result) }
{
    let rows = run_query(tx, READ_ENTRIES, params![book, number])?;
    read_entries(alloc, &rows)
}

/// The secrets of a pledge in order; none if there is no such pledge.
pub(crate) fn secrets_in<S: Alter>(
    tx: &mut Transaction<'_, S>,
    alloc: Global,
    book: u32,
    number: u32,
) -> Result<Secrets, KeepError>
    ensures finds { FindsBy S.Store tx.old.conn tx.new.conn (IsUnsoundAt book) result (λ h x. x ≡ secrets_of (pledge_in (get h.books book) number)) }
    ensures lent { Lends S.Store tx.old.conn tx.new.conn (is_ok result) }
{
    let rows = run_query(tx, READ_SECRETS, params![book, number])?;
    read_secrets(alloc, &rows)
}

/// The extensions of a pledge in order; none if there is no such pledge.
pub(crate) fn extensions_in<S: Alter>(
    tx: &mut Transaction<'_, S>,
    alloc: Global,
    book: u32,
    number: u32,
) -> Result<Extensions, KeepError>
    ensures finds { FindsBy S.Store tx.old.conn tx.new.conn (IsUnsoundAt book) result (λ h x. x ≡ extensions_of (pledge_in (get h.books book) number)) }
    ensures lent { Lends S.Store tx.old.conn tx.new.conn (is_ok result) }
{
    let rows = run_query(tx, READ_EXTENSIONS, params![book, number])?;
    read_extensions(alloc, &rows)
}

/// The booking of a pledge, if it has one. The error is `NoRecord` only if the book is not sound.
pub fn booking_in<S: Alter>(
    tx: &mut Transaction<'_, S>,
    book: u32,
    number: u32,
) -> Result<Option<Booking>, KeepError>
    ensures finds { FindsBy S.Store tx.old.conn tx.new.conn (IsUnsoundAt book) result (λ h x. x ≡ booking_of (pledge_in (get h.books book) number)) }
    ensures lent { Lends S.Store tx.old.conn tx.new.conn (is_ok result) }
{
    let rows = run_query(tx, READ_BOOKING, params![book, number])?;
    first_booking(&rows)
}

/// The stored totals of a pledge, if there is such a pledge.
pub(crate) fn totals_in<S: Alter>(
    tx: &mut Transaction<'_, S>,
    book: u32,
    number: u32,
) -> Result<Option<Totals>, KeepError>
    ensures finds { FindsBy S.Store tx.old.conn tx.new.conn (IsUnsoundAt book) result (λ h x. x ≡ totals_in (pledge_in (get h.books book) number)) }
    ensures lent { Lends S.Store tx.old.conn tx.new.conn (is_ok result) }
{
    let rows = run_query(tx, READ_TOTALS, params![book, number])?;
    first_totals(&rows)
}

/// The terms that a book has under a version, if it has any. Versions are counted from 1. The error is `NoRecord` only
/// if the book is not sound.
pub fn terms_in<S: Alter>(
    tx: &mut Transaction<'_, S>,
    book: u32,
    version: u32,
) -> Result<Option<Terms>, KeepError>
    ensures finds { FindsBy S.Store tx.old.conn tx.new.conn (IsUnsoundAt book) result (λ h x. x ≡ terms_at (terms_of (get h.books book)) version) }
    ensures debts { FindsOf ListDebts (IsUnsoundAt book) (state S.Store tx.old.conn.now) (state S.Store tx.new.conn.now) result
        (λ h x. x ≡ terms_at (terms_of (get h.books book)) version) }
    ensures lent { Lends S.Store tx.old.conn tx.new.conn (is_ok result) }
{
    let rows = run_query(tx, READ_TERMS, params![book, version])?;
    first_terms(&rows)
}

/// The row of a pledge, if there is such a pledge.
pub(crate) fn row_in<S: Alter>(
    tx: &mut Transaction<'_, S>,
    alloc: Global,
    book: u32,
    number: u32,
) -> Result<Option<PledgeRow>, KeepError>
    ensures finds { FindsBy S.Store tx.old.conn tx.new.conn (IsUnsoundAt book) result (λ h x. x ≡ option_map row_of (pledge_in (get h.books book) number)) }
    ensures lent { Lends S.Store tx.old.conn tx.new.conn (is_ok result) }
{
    let rows = run_query(tx, READ_PLEDGE, params![book, number])?;
    first_pledge(alloc, &rows)
}
