//! Writes the rows of a book's text, one function for each kind of row.
ghost use Rattle.pawn_csv.specs.Common.{default_writer, row_text};
ghost use Rattle.pawn_csv.specs.Rows.{empty_columns, header};
ghost use Rattle.pawn_csv.specs.Exports.{csv_row, item_columns};
ghost use Rattle.pawn_csv.specs.Sent.{PutsRow, has_ended, text_of_row};
ghost use Rattle.pawn_csv.specs.Spelling.{texts_of};
ghost use Rattle.pawn_csv.specs.Types.{Row, Version};
ghost use Rattle.pawn_writing.specs.Ends.{write_failed, writing_inner};
ghost use Rattle.std.specs.Prelude.{◌≡◌, ◌≤◌, ◌-◌, ◌++◌, IfOk, true, false, length};

use crate::row::{COLUMNS, HEADER, Version};
use crate::words::{
    ColumnWord, closing_amount, closing_day, closing_word, day_if_any, number_if_any, secret_text,
};
use csv::Writer;
use itoa::Buffer;
use pawn_book::{Booking, Day, Entry, Extension, Issued, PledgeItem, Rates, RequestDay, RowItem};
use pawn_writing::{Writing, put};
use std::alloc::{AllocError, Global};
use std::io::Write;
use uuid::Uuid;

/// A writer of rows. It remembers whether some row was not written completely: because the writer failed, or because
/// memory ran out.
#[derive(Drop)]
pub(crate) struct Sink<W> {
    alloc: Global,
    writer: Writing<W>,
    /// Whether memory ran out for a row.
    is_starved: bool,
}

impl<W> Sink<W> {
    /// Wraps a writer. No row has been written yet.
    pub(crate) fn new(alloc: Global, inner: W) -> Sink<W>
        ensures inner { writing_inner result.writer ≡ inner }
        ensures ended { has_ended result ≡ false }
    {
        Sink {
            alloc,
            writer: Writing::new(inner),
            is_starved: false,
        }
    }

    /// Returns whether some row was not written completely.
    pub(crate) fn has_ended(&self) -> bool
        ensures answer { result ≡ has_ended self.now }
    {
        self.writer.has_failed() || self.is_starved
    }

    /// Returns whether the writer failed.
    pub(crate) fn has_failed(&self) -> bool
        ensures answer { result ≡ write_failed self.now.writer }
    {
        self.writer.has_failed()
    }

    /// Returns the inner writer.
    pub(crate) fn into_inner(self) -> W
        ensures answer { result ≡ writing_inner self.writer }
    {
        self.writer.into_inner()
    }
}

/// Returns the text of a row with these columns. The row is built in memory before it is written, because the CSV
/// writer does not report how much it wrote before it failed. Each row has a CSV writer of its own, because a CSV
/// writer returns its buffer only when it ends.
fn row_text(alloc: Global, columns: &[&[u8]]) -> Result<Vec<u8>, AllocError>
    ensures value { IfOk result (λ text. text.items ≡ row_text default_writer (texts_of columns.now)) }
{
    let mut writer = Writer::from_writer(Vec::new(alloc));
    match writer.write_fields(columns) {
        Ok(()) => {}
        Err(_) => return Err(AllocError),
    }
    match writer.into_inner() {
        Ok(text) => Ok(text),
        Err(_) => Err(AllocError),
    }
}

/// Writes a row with these columns. Does nothing if an earlier row was not written completely.
pub(crate) fn put_row<W: Write>(sink: &mut Sink<W>, columns: &[&[u8]])
    ensures puts { PutsRow W.contents sink.old (row_text default_writer (texts_of columns.now)) sink.new }
{
    if sink.has_ended() {
        return;
    }
    match row_text(sink.alloc, columns) {
        Ok(text) => put(&mut sink.writer, text.as_slice()),
        Err(_) => sink.is_starved = true,
    }
}

/// Writes a row that begins with these columns and is filled up with empty ones.
fn put_padded<W: Write>(sink: &mut Sink<W>, columns: &[&[u8]])
    requires few { length columns.now ≤ COLUMNS }
    ensures puts { PutsRow W.contents sink.old (row_text default_writer
        (texts_of columns.now ++ empty_columns (COLUMNS - length columns.now))) sink.new }
{
    let mut row: [&[u8]; COLUMNS] = [b""; COLUMNS];
    for place in 0..columns.len() {
        row[place] = columns[place];
    }
    put_row(sink, &row);
}

/// Writes the header: the names of the columns.
pub(crate) fn put_header<W: Write>(sink: &mut Sink<W>)
    ensures puts { PutsRow W.contents sink.old (row_text default_writer header) sink.new }
{
    put_row(sink, &HEADER);
}

/// Writes the first row of a book, such as `B,2,1,1`: version 2 of the form, the number of versions of terms, and the
/// number of pledges.
pub(crate) fn put_book<W: Write>(sink: &mut Sink<W>, terms: u64, pledges: u64)
    ensures puts { PutsRow W.contents sink.old (text_of_row (Row.Book Version.Two terms pledges)) sink.new }
{
    put_padded(
        sink,
        &[
            b"B",
            Version::Two.column_word(),
            Buffer::new().format(terms).as_bytes(),
            Buffer::new().format(pledges).as_bytes(),
        ],
    );
}

/// Writes a version of the terms, such as `T,1,0,0,0`. The rate of interest is in millionths a day, and the charges for
/// safe keeping are in millionths of a penny a day.
pub(crate) fn put_terms<W: Write>(sink: &mut Sink<W>, version: u64, rates: Rates)
    ensures puts { PutsRow W.contents sink.old (text_of_row (Row.Terms version rates)) sink.new }
{
    put_padded(
        sink,
        &[
            b"T",
            Buffer::new().format(version).as_bytes(),
            Buffer::new().format(rates.rate).as_bytes(),
            Buffer::new().format(rates.keep_before).as_bytes(),
            Buffer::new().format(rates.keep_after).as_bytes(),
        ],
    );
}

/// Writes a pledge's own row, such as `P,1,A1,Gold ring,fixed,10000,2024-01-31,,no,1,no,2024-02-01,open,,`: what was
/// agreed when the pledge was taken, and its present state. Amounts are in pence.
fn put_pledge<W: Write>(sink: &mut Sink<W>, pledge: &PledgeItem)
    ensures puts { PutsRow W.contents sink.old (text_of_row (Row.Pledge (item_columns pledge.now))) sink.new }
{
    let opening = &pledge.opening;
    put_row(
        sink,
        &[
            b"P",
            Buffer::new().format(pledge.number.get()).as_bytes(),
            opening.reference.as_str().as_bytes(),
            opening.article.as_str().as_bytes(),
            opening.kind.column_word(),
            Buffer::new().format(opening.kind.credit()).as_bytes(),
            &pledge.taken.text(),
            day_if_any(agreed_end(opening.agreed), &mut [0; 10]),
            opening.five_days.column_word(),
            Buffer::new().format(pledge.version).as_bytes(),
            pledge.held.column_word(),
            &pledge.last.text(),
            closing_word(pledge.closing).column_word(),
            day_if_any(closing_day(pledge.closing), &mut [0; 10]),
            number_if_any(closing_amount(pledge.closing), &mut Buffer::new()),
        ],
    );
}

/// Returns the agreed end as a day of the calendar.
fn agreed_end(agreed: Option<RequestDay>) -> Option<Day>
    ensures value { result ≡ agreed }
{
    match agreed {
        Some(day) => Some(day.day()),
        None => None,
    }
}

/// Writes a secret, such as `S,1,2,2024-02-01,sworn,00000000-0000-0000-0000-000000000004`. Its place is counted from 1.
fn put_secret<W: Write>(sink: &mut Sink<W>, number: u64, place: u64, issued: &Issued)
    ensures puts { PutsRow W.contents sink.old (text_of_row (Row.Secret number place issued.now)) sink.new }
{
    put_padded(
        sink,
        &[
            b"S",
            Buffer::new().format(number).as_bytes(),
            Buffer::new().format(place).as_bytes(),
            &issued.day.text(),
            issued.sort.column_word(),
            secret_text(issued.secret, &mut Uuid::encode_buffer()),
        ],
    );
}

/// Writes an entry, such as `E,1,1,2024-02-01,repay,1000`. The amount is in pence.
fn put_entry<W: Write>(sink: &mut Sink<W>, number: u64, entry: &Entry)
    ensures puts { PutsRow W.contents sink.old (text_of_row (Row.Entry number entry.now)) sink.new }
{
    put_padded(
        sink,
        &[
            b"E",
            Buffer::new().format(number).as_bytes(),
            Buffer::new().format(entry.seq).as_bytes(),
            &entry.day.text(),
            entry.sort.column_word(),
            Buffer::new().format(entry.pence).as_bytes(),
        ],
    );
}

/// Writes an extension, such as `X,1,1,2024-02-01,2024-09-30`. Its place is counted from 1.
fn put_extension<W: Write>(sink: &mut Sink<W>, number: u64, place: u64, extension: &Extension)
    ensures puts { PutsRow W.contents sink.old (text_of_row (Row.Extension number place extension.now)) sink.new }
{
    put_padded(
        sink,
        &[
            b"X",
            Buffer::new().format(number).as_bytes(),
            Buffer::new().format(place).as_bytes(),
            &extension.day.text(),
            &extension.until.text(),
        ],
    );
}

/// Writes a booking, such as `K,1,2024-02-10,3,asked`.
fn put_booking<W: Write>(sink: &mut Sink<W>, number: u64, booking: Booking)
    ensures puts { PutsRow W.contents sink.old (text_of_row (Row.Booking number booking)) sink.new }
{
    put_padded(
        sink,
        &[
            b"K",
            Buffer::new().format(number).as_bytes(),
            &booking.day.text(),
            Buffer::new().format(booking.window).as_bytes(),
            booking.state.column_word(),
        ],
    );
}

/// Writes the row of a pledge.
pub(crate) fn put_item<W: Write>(sink: &mut Sink<W>, item: &RowItem)
    ensures puts { PutsRow W.contents sink.old (text_of_row (csv_row item.now)) sink.new }
{
    match item {
        RowItem::Pledge(pledge) => put_pledge(sink, pledge),
        RowItem::Secret {
            number,
            place,
            issued,
        } => put_secret(sink, u64::from(number.get()), *place, issued),
        RowItem::Entry { number, entry } => put_entry(sink, u64::from(number.get()), entry),
        RowItem::Extension {
            number,
            place,
            extension,
        } => put_extension(sink, u64::from(number.get()), *place, extension),
        RowItem::Booking { number, booking } => {
            put_booking(sink, u64::from(number.get()), *booking)
        }
    }
}
