//! Decodes the row of a book, and rows that consist of one number.
ghost use Rattle.pawn_tables.specs.Common.{IsNumber, BookValue, book_head, IsCapacity, Imported};
ghost use Rattle.pawn_tables.specs.Finding.{IsRead};
ghost use Rattle.pawn_tables.specs.Heads.{HasKeys, IsHeadDecodable, most_counted, number_cells};
ghost use Rattle.pawn_tables.specs.Rows.{at_most_one, head_cells, import_count, import_key};
ghost use Rattle.std.specs.Prelude.{[], ◌∷◌, ◌≡◌, ℕ, Option, IfSome, min, option_map, ⊤};

use crate::cells::{NO_RECORD, number_at, optional_at, optional_word_at, text_at, word_at};
use pawn_book::{BookHead, Capacity, Imported, KeepError, Number, Secret, StoreFault};
use sqlite::Row;
use std::alloc::Global;

/// The import that filled a book, from its key and the number of its pledges. `NoRecord` if only one of them is there.
fn imported_of(key: Option<Secret>, pledges: Option<u64>) -> Result<Option<Imported>, KeepError>
    ensures read { (i : Option Imported) → key ≡ import_key i → pledges ≡ import_count i → IsRead result i ⊤ }
{
    match (key, pledges) {
        (Some(key), Some(pledges)) => Ok(Some(Imported { key, pledges })),
        (None, None) => Ok(None),
        _ => Err(NO_RECORD),
    }
}

/// The capacity with this number. `NoRecord` if a book may not have it.
fn capacity_of(number: u64) -> Result<Capacity, KeepError>
    ensures read { IsRead result number (IsCapacity number) }
{
    match Capacity::new(number) {
        Some(capacity) => Ok(capacity),
        None => Err(NO_RECORD),
    }
}

/// The head that the row of a book has.
fn head_of(alloc: Global, row: &Row) -> Result<BookHead, KeepError>
    ensures read { (k : BookValue) → HasKeys k → row.now ≡ head_cells k → IsRead result (book_head k) (IsHeadDecodable k) }
{
    let key = word_at(row, 0)?;
    let capacity = capacity_of(number_at(row, 2)?)?;
    let terms = number_at(row, 3)?;
    let pledges = number_at(row, 4)?;
    let imported = imported_of(optional_word_at(row, 5)?, optional_at(row, 6)?)?;
    let name = text_at(alloc, row, 1)?;
    Ok(BookHead {
        key,
        name,
        capacity,
        terms,
        pledges,
        imported,
    })
}

/// The head that the first row has, if there is a row.
pub(crate) fn first_head(alloc: Global, rows: &[Row]) -> Result<Option<BookHead>, KeepError>
    ensures read { (k : Option BookValue) → IfSome k HasKeys → rows.now ≡ at_most_one head_cells k
        → IsRead result (option_map book_head k) (IfSome k IsHeadDecodable) }
{
    let [row, ..] = rows else {
        return Ok(None);
    };
    Ok(Some(head_of(alloc, row)?))
}

/// The number of a book or a pledge. `NoRecord` if it is out of range.
pub(crate) fn number_of(number: u64) -> Result<Number, KeepError>
    ensures read { IsRead result number (IsNumber number) }
{
    match Number::new(number) {
        Some(number) => Ok(number),
        None => Err(NO_RECORD),
    }
}

/// The number of a book or a pledge in the first row, if there is a row.
pub(crate) fn first_number(rows: &[Row]) -> Result<Option<Number>, KeepError>
    ensures read { (n : Option ℕ) → rows.now ≡ at_most_one number_cells n → IsRead result n (IfSome n IsNumber) }
{
    let [row, ..] = rows else {
        return Ok(None);
    };
    Ok(Some(number_of(number_at(row, 0)?)?))
}

/// The number in the first row. `NoRecord` if there is no row.
pub(crate) fn only_number(rows: &[Row]) -> Result<u64, KeepError>
    ensures read { (n : ℕ) → rows.now ≡ number_cells n ∷ [] → IsRead result n ⊤ }
{
    let [row, ..] = rows else {
        return Err(NO_RECORD);
    };
    number_at(row, 0)
}

/// The result of a `count(*)`, in the first row. `NoRecord` if there is no row. The error is `Database` for the largest
/// number that SQL counts to, because there may be more rows than that.
pub(crate) fn only_count(rows: &[Row]) -> Result<u64, KeepError>
    ensures read { (n : ℕ) → rows.now ≡ number_cells (min n most_counted) ∷ [] → IsRead result n ⊤ }
{
    let count = only_number(rows)?;
    if count < i64::MAX as u64 {
        Ok(count)
    } else {
        Err(KeepError::Store(StoreFault::Database))
    }
}
