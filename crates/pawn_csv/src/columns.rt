//! Reads single columns: numbers, days, secrets, texts and words. A malformed column reads as `None`.
ghost use Rattle.pawn_csv.specs.Columns.{IsAny, closing_text, form_text, issue_text, kind_text, text_if_any, yes_text};
ghost use Rattle.pawn_csv.specs.Common.{Each, IsWord, credit_of, fields_of, secret_text, sort_text, state_text};
ghost use Rattle.pawn_csv.specs.Rows.{IsColumnNumber};
ghost use Rattle.pawn_csv.specs.Spelling.{IsColumnNumberIfAny, IsRequestDayIfAny, IsTextColumn, ReadsAs, column_at};
ghost use Rattle.pawn_csv.specs.Spelling.{texts_of};
ghost use Rattle.pawn_terms.specs.Calendar.{IsRequestDay, day_text};
ghost use Rattle.std.specs.Prelude.{◌≡◌, ◌≢◌, ℕ, ◌↔◌, List, [], All, Contains, IfOk, IfNone, IfSome, IsTrue, decimal, length};

use crate::row::{COLUMNS, ClosingWord, NUMBERS_END, Version};
use crate::words::ColumnWord;
use csv::ByteRecord;
use itoa::Buffer;
use pawn_book::{BookingState, Day, Issue, Kind, RequestDay, Secret, Sort, Text};
use std::alloc::{AllocError, Global};
use uuid::Uuid;

/// Returns the column at a place, counted from 0. After the last column it returns an empty one.
pub(crate) fn column(columns: &ByteRecord, place: usize) -> &[u8]
    ensures value { result.now ≡ column_at (fields_of columns.now) place }
{
    match columns.get(place) {
        Some(field) => field,
        None => &[],
    }
}

/// Returns the columns of a record that has `COLUMNS` of them.
pub(crate) fn columns_of(fields: &ByteRecord) -> [&[u8]; COLUMNS]
    requires wide { length (fields_of fields.now) ≡ COLUMNS }
    ensures value { texts_of result ≡ fields_of fields.now }
{
    let mut columns: [&[u8]; COLUMNS] = [b""; COLUMNS];
    for place in 0..COLUMNS {
        columns[place] = column(fields, place);
    }
    columns
}

/// Reads a number: decimal, at most 12 digits, without a sign or leading zeros.
pub(crate) fn read_number(field: &[u8]) -> Option<u64>
    ensures value { ReadsAs decimal IsColumnNumber field.now result }
{
    let Ok(text) = str::from_utf8(field) else {
        return None;
    };
    let Ok(number) = text.parse::<u64>() else {
        return None;
    };
    if number >= NUMBERS_END {
        return None;
    }
    let mut buffer = Buffer::new();
    if buffer.format(number).as_bytes() == field {
        Some(number)
    } else {
        None
    }
}

/// Reads a day, such as `2024-01-31`.
pub(crate) fn read_day(field: &[u8]) -> Option<Day>
    ensures value { ReadsAs day_text IsRequestDay field.now result }
{
    match Day::of_text(field) {
        Ok(day) => Some(day),
        Err(_) => None,
    }
}

/// Reads a secret, hyphenated and in lower case.
pub(crate) fn read_secret(field: &[u8]) -> Option<Secret>
    ensures value { ReadsAs secret_text IsWord field.now result }
{
    let Some(secret) = Secret::of_text(field) else {
        return None;
    };
    let mut buffer = Uuid::encode_buffer();
    let text = Uuid::from_u128(secret.word())
        .hyphenated()
        .encode_lower(&mut buffer);
    if text.as_bytes() == field {
        Some(secret)
    } else {
        None
    }
}

/// Returns the one of these values that the column states by its word.
fn value_of<A: ColumnWord>(field: &[u8], values: &[A]) -> Option<A>
    ensures found { IfSome result (λ value. Contains values.now value × (field.now ≡ A.text value)) }
    ensures none { IfNone result (Each (λ value. field.now ≢ A.text value) values.now) }
{
    for value in values {
        let word = value.column_word();
        if word == field {
            return Some(*value);
        }
    }
    None
}

/// Reads the version of the text's form.
pub(crate) fn read_version(field: &[u8]) -> Option<Version>
    ensures value { ReadsAs form_text IsAny field.now result }
{
    value_of(field, &[Version::One, Version::Two])
}

/// Reads a flag: `yes` is true and `no` is false.
pub(crate) fn read_yes(field: &[u8]) -> Option<bool>
    ensures value { ReadsAs yes_text IsAny field.now result }
{
    value_of(field, &[true, false])
}

/// Reads whether a pledge is open, redeemed or sold.
pub(crate) fn read_closing(field: &[u8]) -> Option<ClosingWord>
    ensures value { ReadsAs closing_text IsAny field.now result }
{
    let values = [ClosingWord::Open, ClosingWord::Redeemed, ClosingWord::Sold];
    value_of(field, &values)
}

/// Reads why a secret was issued.
pub(crate) fn read_issue(field: &[u8]) -> Option<Issue>
    ensures value { ReadsAs issue_text IsAny field.now result }
{
    value_of(field, &[Issue::Opening, Issue::Sworn, Issue::Written])
}

/// Reads the sort of an entry.
pub(crate) fn read_sort(field: &[u8]) -> Option<Sort>
    ensures value { ReadsAs sort_text IsAny field.now result }
{
    value_of(field, &[Sort::Draw, Sort::Repay])
}

/// Reads the state of a booking.
pub(crate) fn read_state(field: &[u8]) -> Option<BookingState>
    ensures value { ReadsAs state_text IsAny field.now result }
{
    let values = [
        BookingState::Asked,
        BookingState::Confirmed,
        BookingState::Refused,
        BookingState::Cancelled,
    ];
    value_of(field, &values)
}

/// Reads a number. `Some(None)` if the column is empty; `None` if it is malformed.
pub(crate) fn read_number_if_any(field: &[u8]) -> Option<Option<u64>>
    ensures value { ReadsAs (text_if_any decimal) IsColumnNumberIfAny field.now result }
{
    if field.is_empty() {
        return Some(None);
    }
    match read_number(field) {
        Some(number) => Some(Some(number)),
        None => None,
    }
}

/// Reads a day. `Some(None)` if the column is empty; `None` if it is malformed.
pub(crate) fn read_day_if_any(field: &[u8]) -> Option<Option<Day>>
    ensures value { ReadsAs (text_if_any day_text) IsRequestDayIfAny field.now result }
{
    if field.is_empty() {
        return Some(None);
    }
    match read_day(field) {
        Some(day) => Some(Some(day)),
        None => None,
    }
}

/// Reads the agreed end of a period. `Some(None)` if the column is empty; `None` if it is malformed.
pub(crate) fn read_agreed(field: &[u8]) -> Option<Option<RequestDay>>
    ensures value { ReadsAs (text_if_any day_text) IsRequestDayIfAny field.now result }
{
    if field.is_empty() {
        return Some(None);
    }
    match RequestDay::of_text(field) {
        Ok(day) => Some(Some(day)),
        Err(_) => None,
    }
}

/// Reads a text of 1 to `MOST` bytes of UTF-8. `None` if the column is no such text.
pub(crate) fn read_text<const MOST: usize>(
    alloc: Global,
    field: &[u8],
) -> Result<Option<Text<MOST>>, AllocError>
    ensures value { IfOk result (λ text. ReadsAs (λ (bytes : List ℕ). bytes) (IsTextColumn MOST) field.now text) }
{
    let Ok(text) = str::from_utf8(field) else {
        return Ok(None);
    };
    Text::of_str(alloc, text)
}

/// Reads the kind of a pledge from two columns: its word, and its sum or limit in pence.
pub(crate) fn read_kind(word: &[u8], amount: &[u8]) -> Option<Kind>
    ensures found { IfSome result (λ kind. (word.now ≡ kind_text kind) × IsColumnNumber (credit_of kind) × (amount.now ≡ decimal (credit_of kind))) }
    ensures none { IfNone result ((kind : Kind) → word.now ≡ kind_text kind → IsColumnNumber (credit_of kind) → amount.now ≡ decimal (credit_of kind) → ⊥) }
{
    let Some(amount) = read_number(amount) else {
        return None;
    };
    value_of(word, &[Kind::Fixed(amount), Kind::Running(amount)])
}

/// Returns whether all of these columns are empty.
pub(crate) fn are_blank(columns: &[&[u8]]) -> bool
    ensures answer { IsTrue result ↔ All (λ column. column.now ≡ []) columns.now }
{
    columns.iter().all(|column| column.is_empty())
}
