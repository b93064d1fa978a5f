//! Reads the value of a column: numbers, flags, days, keys, texts. `encoding` writes them.
ghost use Rattle.pawn_tables.specs.Common.{to_be_bytes, w128, column, IsDayNumber, IsRequestDay, Sort, IsText};
ghost use Rattle.pawn_tables.specs.Common.{BookingState, Issue, IsWord, Database, NoRecord};
ghost use Rattle.pawn_tables.specs.Entries.{IsAmount};
ghost use Rattle.pawn_tables.specs.Finding.{IsRead};
ghost use Rattle.pawn_tables.specs.Rows.{flag, flag_number, issue_number, number, or_null, sort_number, state_number};
ghost use Rattle.pawn_tables.specs.Rows.{word};
ghost use Rattle.sqlite.specs.declared.error.ErrorCode.TheVariants.{OutOfMemory};
ghost use Rattle.sqlite.specs.declared.types.Value.TheVariants.{Text as Words};
ghost use Rattle.std.specs.Prelude.{◌≡◌, ◌≢◌, ◌<◌, ℕ, List, Bool, Option, IfSome, length, ⊤};
ghost use Rattle.std.specs.Str.{IsUtf8};
ghost use Rattle.sqlite.specs.declared.error.Error.TheVariants as SqlError;
ghost use Rattle.pawn_book.specs.declared.fault.KeepError.TheVariants as Keeper;

use pawn_book::{BookingState, Day, Issue, KeepError, RequestDay, Secret, Sort, StoreFault};
use pawn_debt::MOST_PENCE;
use pawn_pledge::Text;
use sqlite::{Error, ErrorCode, Row};
use std::alloc::Global;
use uuid::Uuid;

/// The error for a stored row that cannot be decoded.
pub(crate) const NO_RECORD: KeepError = KeepError::Store(StoreFault::NoRecord);

/// The error for a statement that failed: `Memory` if it was out of memory, otherwise `Database`.
pub fn keeper_error(error: Error) -> KeepError
    ensures no_row { result ≢ Keeper.Store NoRecord }
    ensures memory { result ≡ Keeper.Memory → error ≡ SqlError.SqliteFailure OutOfMemory }
    ensures out_of_memory { error ≡ SqlError.SqliteFailure OutOfMemory → result ≡ Keeper.Memory }
{
    match error {
        Error::SqliteFailure(ErrorCode::OutOfMemory) => KeepError::Memory,
        _ => KeepError::Store(StoreFault::Database),
    }
}

/// The error for a value of a row that could not be read: `Memory` if out of memory, otherwise `NoRecord`.
fn unread(error: Error) -> KeepError
    ensures out_of_memory { error ≡ SqlError.SqliteFailure OutOfMemory → result ≡ Keeper.Memory }
    ensures memory { result ≡ Keeper.Memory → error ≡ SqlError.SqliteFailure OutOfMemory }
    ensures no_fault { result ≢ Keeper.Store Database }
{
    match keeper_error(error) {
        KeepError::Memory => KeepError::Memory,
        KeepError::Store(_) => NO_RECORD,
    }
}

/// The number in a column.
pub(crate) fn number_at(row: &Row, at: usize) -> Result<u64, KeepError>
    ensures read { (n : ℕ) → at < length row.now → column row.now at ≡ number n → IsRead result n ⊤ }
{
    match row.get::<u64>(at) {
        Ok(n) => Ok(n),
        Err(error) => Err(unread(error)),
    }
}

/// The number in a column, or `None` if it is NULL.
pub(crate) fn optional_at(row: &Row, at: usize) -> Result<Option<u64>, KeepError>
    ensures read { (n : Option ℕ) → at < length row.now → column row.now at ≡ or_null number n → IsRead result n ⊤ }
{
    match row.get::<Option<u64>>(at) {
        Ok(n) => Ok(n),
        Err(error) => Err(unread(error)),
    }
}

/// The flag that a number encodes: 0 is false, 1 is true. Another number is `NoRecord`.
fn flag_of(number: u64) -> Result<bool, KeepError>
    ensures read { (b : Bool) → number ≡ flag_number b → IsRead result b ⊤ }
{
    match number {
        0 => Ok(false),
        1 => Ok(true),
        _ => Err(NO_RECORD),
    }
}

/// The flag in a column.
pub(crate) fn flag_at(row: &Row, at: usize) -> Result<bool, KeepError>
    ensures read { (b : Bool) → at < length row.now → column row.now at ≡ flag b → IsRead result b ⊤ }
{
    flag_of(number_at(row, at)?)
}

/// The day with this number, counted from 1970-01-01. `NoRecord` if it is not from 2000-01-01 to 2299-12-31.
pub(crate) fn day_of(number: u64) -> Result<Day, KeepError>
    ensures read { IsRead result number (IsDayNumber number) }
{
    let Ok(count) = i32::try_from(number) else {
        return Err(NO_RECORD);
    };
    match Day::of_number(count) {
        Ok(day) => Ok(day),
        Err(_) => Err(NO_RECORD),
    }
}

/// The day in a column.
pub(crate) fn day_at(row: &Row, at: usize) -> Result<Day, KeepError>
    ensures read { (d : ℕ) → at < length row.now → column row.now at ≡ number d → IsRead result d (IsDayNumber d) }
{
    day_of(number_at(row, at)?)
}

/// The day with this number, if there is a number. `NoRecord` if it is not a day that a request may name.
pub(crate) fn optional_request_day(number: Option<u64>) -> Result<Option<RequestDay>, KeepError>
    ensures read { IsRead result number (IfSome number IsRequestDay) }
{
    let Some(number) = number else {
        return Ok(None);
    };
    match RequestDay::of_day(day_of(number)?) {
        Ok(day) => Ok(Some(day)),
        Err(_) => Err(NO_RECORD),
    }
}

/// The key or secret in a column: a blob of sixteen bytes.
pub(crate) fn word_at(row: &Row, at: usize) -> Result<Secret, KeepError>
    ensures read { (w : ℕ) → at < length row.now → IsWord w → column row.now at ≡ word w → IsRead result w ⊤ }
{
    let blob = match row.get::<Vec<u8>>(at) {
        Ok(blob) => blob,
        Err(error) => return Err(unread(error)),
    };
    match Uuid::from_slice(&blob) {
        Ok(id) => Ok(Secret::of_word(id.as_u128())),
        Err(_) => Err(NO_RECORD),
    }
}

/// The key that sixteen bytes encode, the most significant byte first.
fn key_of_blob(bytes: &[u8]) -> Result<Secret, KeepError>
    ensures read { (w : ℕ) → IsWord w → bytes.now ≡ to_be_bytes w128 w → IsRead result w ⊤ }
{
    match Uuid::from_slice(bytes) {
        Ok(id) => Ok(Secret::of_word(id.as_u128())),
        Err(_) => Err(NO_RECORD),
    }
}

/// The key in a column, or `None` if it is NULL.
pub(crate) fn optional_word_at(row: &Row, at: usize) -> Result<Option<Secret>, KeepError>
    ensures read { (w : Option ℕ) → at < length row.now → IfSome w IsWord → column row.now at ≡ or_null word w → IsRead result w ⊤ }
{
    match row.get::<Option<Vec<u8>>>(at) {
        Ok(Some(bytes)) => Ok(Some(key_of_blob(&bytes)?)),
        Ok(None) => Ok(None),
        Err(error) => Err(unread(error)),
    }
}

/// The text in a column. `NoRecord` if it is not within the limits of `Text<MOST>`.
pub(crate) fn text_at<const MOST: usize>(
    alloc: Global,
    row: &Row,
    at: usize,
) -> Result<Text<MOST>, KeepError>
    ensures read { (t : List ℕ) → at < length row.now → column row.now at ≡ Words t → IsRead result t (IsText MOST t × IsUtf8 t) }
{
    let string = match row.get::<String>(at) {
        Ok(string) => string,
        Err(error) => return Err(unread(error)),
    };
    match Text::of_str(alloc, string.as_str()) {
        Ok(Some(text)) => Ok(text),
        Ok(None) => Err(NO_RECORD),
        Err(_) => Err(KeepError::Memory),
    }
}

/// The sum of an entry in pence. `NoRecord` if it is not from 1 to `MOST_PENCE`.
pub(crate) fn amount_of(pence: u64) -> Result<u64, KeepError>
    ensures read { IsRead result pence (IsAmount pence) }
{
    if 1 <= pence && pence <= MOST_PENCE {
        Ok(pence)
    } else {
        Err(NO_RECORD)
    }
}

/// The kind of an entry that a number encodes: 0 is a drawing, 1 a repayment.
pub(crate) fn sort_of(number: u64) -> Result<Sort, KeepError>
    ensures read { (s : Sort) → number ≡ sort_number s → IsRead result s ⊤ }
{
    match number {
        0 => Ok(Sort::Draw),
        1 => Ok(Sort::Repay),
        _ => Err(NO_RECORD),
    }
}

/// How a secret was issued, as a number encodes it: 0 with the pledge, 1 on a sworn declaration, 2 on a written
/// statement.
pub(crate) fn issue_of(number: u64) -> Result<Issue, KeepError>
    ensures read { (i : Issue) → number ≡ issue_number i → IsRead result i ⊤ }
{
    match number {
        0 => Ok(Issue::Opening),
        1 => Ok(Issue::Sworn),
        2 => Ok(Issue::Written),
        _ => Err(NO_RECORD),
    }
}

/// The state of a booking that a number encodes, from 0 for asked to 3 for cancelled.
pub(crate) fn state_of(number: u64) -> Result<BookingState, KeepError>
    ensures read { (s : BookingState) → number ≡ state_number s → IsRead result s ⊤ }
{
    match number {
        0 => Ok(BookingState::Asked),
        1 => Ok(BookingState::Confirmed),
        2 => Ok(BookingState::Refused),
        3 => Ok(BookingState::Cancelled),
        _ => Err(NO_RECORD),
    }
}
