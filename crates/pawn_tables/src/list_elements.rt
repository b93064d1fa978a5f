//! Reads one element of a pledge's list by its place.
#![tactic(auto, using(crate::proofs::StatementFinds::unread))]

ghost use Rattle.pawn_tables.specs.Common.{get, pledge_in, entries_of, extensions_of, secrets_of, IsUnsoundAt, Lends};
ghost use Rattle.pawn_tables.specs.Entries.{with_seq};
ghost use Rattle.pawn_tables.specs.Finding.{FindsBy};
ghost use Rattle.pawn_tables.specs.Places.{at_place};
ghost use Rattle.std.specs.Prelude.{◌≡◌, is_ok};

use crate::list_decoding::{first_entry, first_extension, first_issued};
use crate::queries::run_query;
use crate::texts::{READ_ENTRY, READ_EXTENSION, READ_SECRET};
use pawn_book::{Entry, Extension, Issued, KeepError};
use sqlite::{Alter, Transaction, params};

/// The entry of a pledge with the number `seq`, if there is one. The error is `NoRecord` only if the book is not sound.
pub fn entry_in<S: Alter>(
    tx: &mut Transaction<'_, S>,
    book: u32,
    number: u32,
    seq: u32,
) -> Result<Option<Entry>, KeepError>
    ensures finds { FindsBy S.Store tx.old.conn tx.new.conn (IsUnsoundAt book) result
        (λ h x. x ≡ with_seq (entries_of (pledge_in (get h.books book) number)) seq) }
    ensures lent { Lends S.Store tx.old.conn tx.new.conn (is_ok result) }
{
    let rows = run_query(tx, READ_ENTRY, params![book, number, seq])?;
    first_entry(&rows)
}

/// The secret of a pledge at a place, with how it was issued, if there is one. The first place is 1. The error is
/// `NoRecord` only if the book is not sound.
pub fn secret_in<S: Alter>(
    tx: &mut Transaction<'_, S>,
    book: u32,
    number: u32,
    place: u32,
) -> Result<Option<Issued>, KeepError>
    ensures finds { FindsBy S.Store tx.old.conn tx.new.conn (IsUnsoundAt book) result
        (λ h x. x ≡ at_place (secrets_of (pledge_in (get h.books book) number)) place) }
    ensures lent { Lends S.Store tx.old.conn tx.new.conn (is_ok result) }
{
    let rows = run_query(tx, READ_SECRET, params![book, number, place])?;
    first_issued(&rows)
}

/// The extension of a pledge at a place, if there is one. The first place is 1. The error is `NoRecord` only if the
/// book is not sound.
pub fn extension_in<S: Alter>(
    tx: &mut Transaction<'_, S>,
    book: u32,
    number: u32,
    place: u32,
) -> Result<Option<Extension>, KeepError>
    ensures finds { FindsBy S.Store tx.old.conn tx.new.conn (IsUnsoundAt book) result
        (λ h x. x ≡ at_place (extensions_of (pledge_in (get h.books book) number)) place) }
    ensures lent { Lends S.Store tx.old.conn tx.new.conn (is_ok result) }
{
    let rows = run_query(tx, READ_EXTENSION, params![book, number, place])?;
    first_extension(&rows)
}
