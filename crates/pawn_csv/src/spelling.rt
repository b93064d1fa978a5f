//! Reads the rows of a book's text from their columns, one function for each kind of row.
ghost use Rattle.csv.specs.Records.{fields_of};
ghost use Rattle.pawn_csv.specs.Rows.{AreColumns, FitsColumns, header, pledge_fields, row_fields};
ghost use Rattle.pawn_csv.specs.Spelling.{IsOpeningOf, ReadsAs, column_at, texts_of};
ghost use Rattle.std.specs.Prelude.{◌≡◌, ◌↔◌, IfOk, IfNone, IfSome, IsTrue, codes, length};

use crate::columns::{
    are_blank, column, columns_of, read_agreed, read_closing, read_day, read_day_if_any,
    read_issue, read_kind, read_number, read_number_if_any, read_secret, read_sort, read_state,
    read_text, read_version, read_yes,
};
use crate::row::{COLUMNS, HEADER, PledgeColumns, Row};
use csv::ByteRecord;
use pawn_book::{Booking, Entry, Extension, Issued, Opening, Rates};
use std::alloc::{AllocError, Global};

/// Reads the first row of a book (`B`): the version of the text's form, and the two counts. `None` if a column is
/// malformed.
fn read_book_row(columns: &[&[u8]]) -> Option<Row>
    requires wide { length columns.now ≡ COLUMNS }
    requires letter { column_at (texts_of columns.now) 0 ≡ codes "B" }
    ensures value { ReadsAs row_fields FitsColumns (texts_of columns.now) result }
{
    let [_, version, terms, pledges, blank @ ..] = columns else {
        return None;
    };
    let version = read_version(version)?;
    let terms = read_number(terms)?;
    let pledges = read_number(pledges)?;
    if !are_blank(blank) {
        return None;
    }
    Some(Row::Book {
        version,
        terms,
        pledges,
    })
}

/// Reads the row of a version of terms (`T`). `None` if a column is malformed.
fn read_terms_row(columns: &[&[u8]]) -> Option<Row>
    requires wide { length columns.now ≡ COLUMNS }
    requires letter { column_at (texts_of columns.now) 0 ≡ codes "T" }
    ensures value { ReadsAs row_fields FitsColumns (texts_of columns.now) result }
{
    let [_, version, rate, keep_before, keep_after, blank @ ..] = columns else {
        return None;
    };
    let version = read_number(version)?;
    let rate = read_number(rate)?;
    let keep_before = read_number(keep_before)?;
    let keep_after = read_number(keep_after)?;
    if !are_blank(blank) {
        return None;
    }
    Some(Row::Terms {
        version,
        rates: Rates {
            rate,
            keep_before,
            keep_after,
        },
    })
}

/// Reads the row of a secret (`S`). `None` if a column is malformed.
fn read_secret_row(columns: &[&[u8]]) -> Option<Row>
    requires wide { length columns.now ≡ COLUMNS }
    requires letter { column_at (texts_of columns.now) 0 ≡ codes "S" }
    ensures value { ReadsAs row_fields FitsColumns (texts_of columns.now) result }
{
    let [_, number, place, day, sort, secret, blank @ ..] = columns else {
        return None;
    };
    let number = read_number(number)?;
    let place = read_number(place)?;
    let day = read_day(day)?;
    let sort = read_issue(sort)?;
    let secret = read_secret(secret)?;
    if !are_blank(blank) {
        return None;
    }
    Some(Row::Secret {
        number,
        place,
        issued: Issued { day, sort, secret },
    })
}

/// Reads the row of an entry (`E`). `None` if a column is malformed.
fn read_entry_row(columns: &[&[u8]]) -> Option<Row>
    requires wide { length columns.now ≡ COLUMNS }
    requires letter { column_at (texts_of columns.now) 0 ≡ codes "E" }
    ensures value { ReadsAs row_fields FitsColumns (texts_of columns.now) result }
{
    let [_, number, seq, day, sort, pence, blank @ ..] = columns else {
        return None;
    };
    let number = read_number(number)?;
    let seq = read_number(seq)?;
    let day = read_day(day)?;
    let sort = read_sort(sort)?;
    let pence = read_number(pence)?;
    if !are_blank(blank) {
        return None;
    }
    Some(Row::Entry {
        number,
        entry: Entry {
            seq,
            day,
            sort,
            pence,
        },
    })
}

/// Reads the row of an extension (`X`). `None` if a column is malformed.
fn read_extension_row(columns: &[&[u8]]) -> Option<Row>
    requires wide { length columns.now ≡ COLUMNS }
    requires letter { column_at (texts_of columns.now) 0 ≡ codes "X" }
    ensures value { ReadsAs row_fields FitsColumns (texts_of columns.now) result }
{
    let [_, number, place, day, until, blank @ ..] = columns else {
        return None;
    };
    let number = read_number(number)?;
    let place = read_number(place)?;
    let day = read_day(day)?;
    let until = read_day(until)?;
    if !are_blank(blank) {
        return None;
    }
    Some(Row::Extension {
        number,
        place,
        extension: Extension { day, until },
    })
}

/// Reads the row of a booking (`K`). `None` if a column is malformed.
fn read_booking_row(columns: &[&[u8]]) -> Option<Row>
    requires wide { length columns.now ≡ COLUMNS }
    requires letter { column_at (texts_of columns.now) 0 ≡ codes "K" }
    ensures value { ReadsAs row_fields FitsColumns (texts_of columns.now) result }
{
    let [_, number, day, window, state, blank @ ..] = columns else {
        return None;
    };
    let number = read_number(number)?;
    let day = read_day(day)?;
    let window = read_number(window)?;
    let state = read_state(state)?;
    if !are_blank(blank) {
        return None;
    }
    Some(Row::Booking {
        number,
        booking: Booking { day, window, state },
    })
}

/// Reads the opening from the columns of a pledge's own row. `None` if a column is malformed.
fn read_opening(alloc: Global, columns: &[&[u8]]) -> Result<Option<Opening>, AllocError>
    requires wide { length columns.now ≡ COLUMNS }
    ensures found { IfOk result (λ opening. IfSome opening (IsOpeningOf (texts_of columns.now))) }
    ensures none { IfOk result (λ opening. IfNone opening ((o : _) → IsOpeningOf (texts_of columns.now) o → ⊥)) }
{
    let [
        _,
        _,
        reference,
        article,
        kind,
        amount,
        _,
        agreed,
        five_days,
        ..
    ] = columns
    else {
        return Ok(None);
    };
    let Some(kind) = read_kind(kind, amount) else {
        return Ok(None);
    };
    let Some(agreed) = read_agreed(agreed) else {
        return Ok(None);
    };
    let Some(five_days) = read_yes(five_days) else {
        return Ok(None);
    };
    let Some(reference) = read_text(alloc, reference)? else {
        return Ok(None);
    };
    let Some(article) = read_text(alloc, article)? else {
        return Ok(None);
    };
    Ok(Some(Opening {
        reference,
        article,
        kind,
        agreed,
        five_days,
    }))
}

/// Adds the other columns of a pledge's own row to its opening, which has been read already. `None` if a column is
/// malformed.
fn with_opening(columns: &[&[u8]], opening: Opening) -> Option<PledgeColumns>
    requires wide { length columns.now ≡ COLUMNS }
    requires letter { column_at (texts_of columns.now) 0 ≡ codes "P" }
    requires opening { IsOpeningOf (texts_of columns.now) opening }
    ensures value { ReadsAs pledge_fields AreColumns (texts_of columns.now) result }
{
    let [
        _,
        number,
        _,
        _,
        _,
        _,
        taken,
        _,
        _,
        version,
        held,
        last,
        closing,
        closing_day,
        amount,
    ] = columns
    else {
        return None;
    };
    let number = read_number(number)?;
    let taken = read_day(taken)?;
    let version = read_number(version)?;
    let held = read_yes(held)?;
    let last = read_day(last)?;
    let closing = read_closing(closing)?;
    let closing_day = read_day_if_any(closing_day)?;
    let amount = read_number_if_any(amount)?;
    Some(PledgeColumns {
        number,
        opening,
        taken,
        version,
        held,
        last,
        closing,
        closing_day,
        amount,
    })
}

/// Reads a pledge's own row (`P`). `None` if a column is malformed.
fn read_pledge_row(alloc: Global, columns: &[&[u8]]) -> Result<Option<Row>, AllocError>
    requires wide { length columns.now ≡ COLUMNS }
    requires letter { column_at (texts_of columns.now) 0 ≡ codes "P" }
    ensures value { IfOk result (λ row. ReadsAs row_fields FitsColumns (texts_of columns.now) row) }
{
    let Some(opening) = read_opening(alloc, columns)? else {
        return Ok(None);
    };
    match with_opening(columns, opening) {
        Some(columns) => Ok(Some(Row::Pledge(columns))),
        None => Ok(None),
    }
}

/// Reads a row from a record of `COLUMNS` columns; the first column names the kind of row. `None` if they are the
/// columns of no row.
pub(crate) fn read_row(alloc: Global, fields: &ByteRecord) -> Result<Option<Row>, AllocError>
    requires wide { length (fields_of fields.now) ≡ COLUMNS }
    ensures value { IfOk result (λ row. ReadsAs row_fields FitsColumns (fields_of fields.now) row) }
{
    let columns = columns_of(fields);
    match columns[0] {
        b"B" => Ok(read_book_row(&columns)),
        b"T" => Ok(read_terms_row(&columns)),
        b"P" => read_pledge_row(alloc, &columns),
        b"S" => Ok(read_secret_row(&columns)),
        b"E" => Ok(read_entry_row(&columns)),
        b"X" => Ok(read_extension_row(&columns)),
        b"K" => Ok(read_booking_row(&columns)),
        _ => Ok(None),
    }
}

/// Returns whether the columns are those of the header.
pub(crate) fn is_header(columns: &ByteRecord) -> bool
    ensures answer { IsTrue result ↔ (fields_of columns.now ≡ header) }
{
    if columns.len() != COLUMNS {
        return false;
    }
    for place in 0..COLUMNS {
        if column(columns, place) != HEADER[place] {
            return false;
        }
    }
    true
}
