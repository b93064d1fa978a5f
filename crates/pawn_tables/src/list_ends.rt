//! Reads how long the lists of a pledge are, and its last secret, without reading the lists.
#![tactic(auto, using(crate::proofs::StatementFinds::unread))]

ghost use Rattle.pawn_tables.specs.Common.{get, IsDayNumber, pledge_in, entries_of, extensions_of, secrets_of};
ghost use Rattle.pawn_tables.specs.Common.{IsUnsoundAt, IsWord, Lends};
ghost use Rattle.pawn_tables.specs.Finding.{FindsBy, IsRead};
ghost use Rattle.pawn_tables.specs.Heads.{number_cells};
ghost use Rattle.pawn_tables.specs.ListEnds.{AreListEnds, last_cells, last_issued, last_seq};
ghost use Rattle.pawn_tables.specs.Rows.{at_most_one};
ghost use Rattle.pawn_tables.specs.declared.joining.LastSecret.{LastSecret};
ghost use Rattle.std.specs.Prelude.{◌≡◌, ℕ, IfSome, Option, is_ok, length, unwrap_or, ⊤};

use crate::cells::number_at;
use crate::joining::{LastSecret, ListEnds};
use crate::list_decoding::issued_of;
use crate::queries::run_query;
use crate::texts::{READ_LAST_PLACE, READ_LAST_SECRET, READ_LAST_SEQ};
use pawn_book::KeepError;
use sqlite::{Alter, Row, Transaction, params};

/// The last secret and its place, from their row.
fn last_of(row: &Row) -> Result<LastSecret, KeepError>
    ensures read { (l : LastSecret) → IsWord l.issued.secret → row.now ≡ last_cells l → IsRead result l (IsDayNumber l.issued.day) }
{
    let place = number_at(row, 0)?;
    let issued = issued_of(row)?;
    Ok(LastSecret { place, issued })
}

/// The last secret and its place, from the first row if there is one.
fn first_last(rows: &[Row]) -> Result<Option<LastSecret>, KeepError>
    ensures read { (l : Option LastSecret) → IfSome l (λ x. IsWord x.issued.secret)
        → rows.now ≡ at_most_one last_cells l → IsRead result l (IfSome l (λ x. IsDayNumber x.issued.day)) }
{
    let [row, ..] = rows else {
        return Ok(None);
    };
    Ok(Some(last_of(row)?))
}

/// The place or the number in the first row, or 0 if there is no row.
fn first_number(rows: &[Row]) -> Result<u64, KeepError>
    ensures read { (n : Option ℕ) → rows.now ≡ at_most_one number_cells n → IsRead result (unwrap_or n 0) ⊤ }
{
    let [row, ..] = rows else {
        return Ok(0);
    };
    number_at(row, 0)
}

/// The number of the last entry of a pledge, or 0 if it has none. Only in a sound book it shows how many entries there
/// are, because elsewhere a number before it may be missing.
fn last_entry_number<S: Alter>(
    tx: &mut Transaction<'_, S>,
    book: u32,
    number: u32,
) -> Result<u64, KeepError>
    ensures finds { FindsBy S.Store tx.old.conn tx.new.conn (IsUnsoundAt book) result
        (λ h last. last ≡ last_seq (entries_of (pledge_in (get h.books book) number))) }
    ensures lent { Lends S.Store tx.old.conn tx.new.conn (is_ok result) }
{
    let rows = run_query(tx, READ_LAST_SEQ, params![book, number])?;
    first_number(&rows)
}

/// The last secret of a pledge, and its place, if there is one.
fn last_secret<S: Alter>(
    tx: &mut Transaction<'_, S>,
    book: u32,
    number: u32,
) -> Result<Option<LastSecret>, KeepError>
    ensures finds { FindsBy S.Store tx.old.conn tx.new.conn (IsUnsoundAt book) result
        (λ h x. x ≡ last_issued (secrets_of (pledge_in (get h.books book) number))) }
    ensures lent { Lends S.Store tx.old.conn tx.new.conn (is_ok result) }
{
    let rows = run_query(tx, READ_LAST_SECRET, params![book, number])?;
    first_last(&rows)
}

/// How many extensions a pledge has: the place of the last one, or 0.
fn extension_count<S: Alter>(
    tx: &mut Transaction<'_, S>,
    book: u32,
    number: u32,
) -> Result<u64, KeepError>
    ensures finds { FindsBy S.Store tx.old.conn tx.new.conn (IsUnsoundAt book) result
        (λ h count. count ≡ length (extensions_of (pledge_in (get h.books book) number))) }
    ensures lent { Lends S.Store tx.old.conn tx.new.conn (is_ok result) }
{
    let rows = run_query(tx, READ_LAST_PLACE, params![book, number])?;
    first_number(&rows)
}

/// The number of the last entry of a pledge, its last secret, and how many extensions it has.
#[tactic(auto, using(crate::proofs::Basics::lent_then))]
pub(crate) fn list_ends_in<S: Alter>(
    tx: &mut Transaction<'_, S>,
    book: u32,
    number: u32,
) -> Result<ListEnds, KeepError>
    ensures finds { FindsBy S.Store tx.old.conn tx.new.conn (IsUnsoundAt book) result (λ h t. IfSome (pledge_in (get h.books book) number) (AreListEnds t)) }
    ensures lent { Lends S.Store tx.old.conn tx.new.conn (is_ok result) }
{
    let last_entry = last_entry_number(tx, book, number)?;
    let last = last_secret(tx, book, number)?;
    let extensions = extension_count(tx, book, number)?;
    Ok(ListEnds {
        last_entry,
        last,
        extensions,
    })
}
