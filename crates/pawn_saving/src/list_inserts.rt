//! Inserts several rows of a list, one after the other.
ghost use Rattle.pawn_saving.specs.RowWrites.{AddsRows, Carries};
ghost use Rattle.pawn_tables.specs.Common.{state};
ghost use Rattle.pawn_tables.specs.Rows.{entry_cells, extension_cells, number, placed_from, secret_cells, terms_cells};
ghost use Rattle.pawn_tables.specs.Rows.{under};
ghost use Rattle.pawn_tables.specs.Schema.{entries_tree, extensions_tree, secrets_tree, terms_tree};
ghost use Rattle.std.specs.Prelude.{◌≡◌, ◌+◌, ◌∷◌, IfOk, is_ok, map};

use crate::books::put_terms;
use crate::entries::{put_entry, put_extension, put_secret};
use pawn_book::{Entry, Extension, Issued, KeepError, Rates};
use pawn_tables::DATABASE_FAILED;
use sqlite::{Alter, Transaction};

/// Inserts entries of a pledge.
pub(crate) fn put_entries<S: Alter>(
    tx: &mut Transaction<'_, S>,
    book: u32,
    number: u32,
    entries: &[Entry],
) -> Result<(), KeepError>
    ensures wrote { AddsRows (state S.Store tx.old.conn.now) (state S.Store tx.new.conn.now) result entries_tree
        (map (λ e. under book number (entry_cells e)) entries.now) }
    ensures carried { Carries S.Store tx.old.conn tx.new.conn (is_ok result) }
{
    for entry in entries {
        put_entry(tx, book, number, entry)?;
    }
    Ok(())
}

/// The next place of a list. `DATABASE_FAILED` if 32 bits cannot hold it.
pub(crate) fn next_place(place: u32) -> Result<u32, KeepError>
    ensures value { IfOk result (λ next. next ≡ place + 1) }
{
    match place.checked_add(1) {
        Some(next) => Ok(next),
        None => Err(DATABASE_FAILED),
    }
}

/// Inserts secrets of a pledge at the places from `from` on.
pub(crate) fn put_secrets<S: Alter>(
    tx: &mut Transaction<'_, S>,
    book: u32,
    number: u32,
    from: u32,
    secrets: &[Issued],
) -> Result<(), KeepError>
    ensures wrote { AddsRows (state S.Store tx.old.conn.now) (state S.Store tx.new.conn.now) result secrets_tree
        (placed_from (λ place i. under book number (secret_cells place i)) from secrets.now) }
    ensures carried { Carries S.Store tx.old.conn tx.new.conn (is_ok result) }
{
    let mut place = from;
    for issued in secrets {
        put_secret(tx, book, number, place, issued)?;
        place = next_place(place)?;
    }
    Ok(())
}

/// Inserts extensions of a pledge's period at the places from `from` on.
pub(crate) fn put_extensions<S: Alter>(
    tx: &mut Transaction<'_, S>,
    book: u32,
    number: u32,
    from: u32,
    extensions: &[Extension],
) -> Result<(), KeepError>
    ensures wrote { AddsRows (state S.Store tx.old.conn.now) (state S.Store tx.new.conn.now) result extensions_tree
        (placed_from (λ place e. under book number (extension_cells place e)) from extensions.now) }
    ensures carried { Carries S.Store tx.old.conn tx.new.conn (is_ok result) }
{
    let mut place = from;
    for extension in extensions {
        put_extension(tx, book, number, place, extension)?;
        place = next_place(place)?;
    }
    Ok(())
}

/// Inserts the versions of a book's terms, from version 1 on.
pub(crate) fn put_versions<S: Alter>(
    tx: &mut Transaction<'_, S>,
    book: u32,
    terms: &[Rates],
) -> Result<(), KeepError>
    ensures wrote { AddsRows (state S.Store tx.old.conn.now) (state S.Store tx.new.conn.now) result terms_tree
        (placed_from (λ version t. number book ∷ number version ∷ terms_cells t) 1 terms.now) }
    ensures carried { Carries S.Store tx.old.conn tx.new.conn (is_ok result) }
{
    let mut version = 1;
    for rates in terms {
        put_terms(tx, book, version, *rates)?;
        version = next_place(version)?;
    }
    Ok(())
}
