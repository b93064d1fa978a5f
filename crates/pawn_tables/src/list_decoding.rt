//! Decodes the rows of a pledge's lists: its entries, secrets and extensions.
ghost use Rattle.pawn_tables.specs.Common.{IsDayNumber, Entry, Each, Extension, Issued, AreWords, IsWord};
ghost use Rattle.pawn_tables.specs.Common.{Row as Cells};
ghost use Rattle.pawn_tables.specs.Entries.{IsEntryDecodable};
ghost use Rattle.pawn_tables.specs.Finding.{IsRead};
ghost use Rattle.pawn_tables.specs.Rows.{at_most_one, entry_cells, extension_cells, placed_from, secret_cells};
ghost use Rattle.std.specs.Prelude.{◌≡◌, ◌++◌, ℕ, IfSome, List, Option, map};

use crate::cells::{amount_of, day_at, issue_of, number_at, sort_of, word_at};
use pawn_book::{Entry, Extension, Issued, KeepError};
use pawn_debt::Entries;
use pawn_pledge::{Extensions, Secrets};
use sqlite::Row;
use std::alloc::Global;

/// The entry that a row encodes.
pub(crate) fn entry_of(row: &Row) -> Result<Entry, KeepError>
    ensures read { (e : Entry) (more : Cells) → row.now ≡ entry_cells e ++ more → IsRead result e (IsEntryDecodable e) }
{
    let seq = number_at(row, 0)?;
    let day = day_at(row, 1)?;
    let sort = sort_of(number_at(row, 2)?)?;
    let number = number_at(row, 3)?;
    let pence = amount_of(number)?;
    Ok(Entry {
        seq,
        day,
        sort,
        pence,
    })
}

/// The secret that a row encodes, with how it was issued.
pub(crate) fn issued_of(row: &Row) -> Result<Issued, KeepError>
    ensures read { (place : ℕ) (i : Issued) (more : Cells) → IsWord i.secret → row.now ≡ secret_cells place i ++ more
        → IsRead result i (IsDayNumber i.day) }
{
    let day = day_at(row, 1)?;
    let sort = issue_of(number_at(row, 2)?)?;
    let secret = word_at(row, 3)?;
    Ok(Issued { day, sort, secret })
}

/// The extension that a row encodes.
pub(crate) fn extension_of(row: &Row) -> Result<Extension, KeepError>
    ensures read { (place : ℕ) (e : Extension) (more : Cells) → row.now ≡ extension_cells place e ++ more
        → IsRead result e (IsDayNumber e.day × IsDayNumber e.until) }
{
    let day = day_at(row, 1)?;
    let until = day_at(row, 2)?;
    Ok(Extension { day, until })
}

/// The entries that the rows encode, in their order.
pub(crate) fn read_entries(alloc: Global, rows: &[Row]) -> Result<Entries, KeepError>
    ensures read { (es : List Entry) → rows.now ≡ map entry_cells es → IsRead result es (Each IsEntryDecodable es) }
{
    let mut entries = Entries::new(alloc);
    for row in rows {
        let entry = entry_of(row)?;
        let Ok(()) = entries.push(entry) else {
            return Err(KeepError::Memory);
        };
    }
    Ok(entries)
}

/// The secrets that the rows encode, in their order, with how they were issued.
pub(crate) fn read_secrets(alloc: Global, rows: &[Row]) -> Result<Secrets, KeepError>
    ensures read { (from : ℕ) (is : List Issued) → AreWords is
        → rows.now ≡ placed_from secret_cells from is → IsRead result is (Each (λ i. IsDayNumber i.day) is) }
{
    let mut secrets = Secrets::new(alloc);
    for row in rows {
        let issued = issued_of(row)?;
        let Ok(()) = secrets.push(issued) else {
            return Err(KeepError::Memory);
        };
    }
    Ok(secrets)
}

/// The extensions that the rows encode, in their order.
pub(crate) fn read_extensions(alloc: Global, rows: &[Row]) -> Result<Extensions, KeepError>
    ensures read { (from : ℕ) (es : List Extension) → rows.now ≡ placed_from extension_cells from es
        → IsRead result es (Each (λ e. IsDayNumber e.day × IsDayNumber e.until) es) }
{
    let mut extensions = Extensions::new(alloc);
    for row in rows {
        let extension = extension_of(row)?;
        let Ok(()) = extensions.push(extension) else {
            return Err(KeepError::Memory);
        };
    }
    Ok(extensions)
}

/// The entry that the first row encodes, if there is a row.
pub(crate) fn first_entry(rows: &[Row]) -> Result<Option<Entry>, KeepError>
    ensures read { (e : Option Entry) → rows.now ≡ at_most_one entry_cells e → IsRead result e (IfSome e IsEntryDecodable) }
{
    let [row, ..] = rows else {
        return Ok(None);
    };
    Ok(Some(entry_of(row)?))
}

/// The secret that the first row encodes, with how it was issued, if there is a row.
pub(crate) fn first_issued(rows: &[Row]) -> Result<Option<Issued>, KeepError>
    ensures read { (place : ℕ) (i : Option Issued) → IfSome i (λ x. IsWord x.secret)
        → rows.now ≡ at_most_one (secret_cells place) i → IsRead result i (IfSome i (λ x. IsDayNumber x.day)) }
{
    let [row, ..] = rows else {
        return Ok(None);
    };
    Ok(Some(issued_of(row)?))
}

/// The extension that the first row encodes, if there is a row.
pub(crate) fn first_extension(rows: &[Row]) -> Result<Option<Extension>, KeepError>
    ensures read { (place : ℕ) (e : Option Extension) → rows.now ≡ at_most_one (extension_cells place) e → IsRead result e
        (IfSome e (λ x. IsDayNumber x.day × IsDayNumber x.until)) }
{
    let [row, ..] = rows else {
        return Ok(None);
    };
    Ok(Some(extension_of(row)?))
}
