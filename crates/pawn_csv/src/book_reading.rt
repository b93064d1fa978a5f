//! Reads a book's text, record by record.
ghost use Rattle.csv.specs.Reading.{Ready, is_flexible, reader_config, reader_state, reader_trim};
ghost use Rattle.pawn_csv.specs.Common.{AreRecords, IfErr, IfOk, IfSome, State, default_config, error_kind, fields_of};
ghost use Rattle.pawn_csv.specs.Common.{source_of, strip_bom};
ghost use Rattle.pawn_csv.specs.Finishing.{IsFinishedAs};
ghost use Rattle.pawn_csv.specs.Order.{begun_of};
ghost use Rattle.pawn_csv.specs.Reading.{AreTaken, CauseOf, EndsReadingAs, IsFaultOf, IsTextOf, Taking};
ghost use Rattle.pawn_csv.specs.Types.{Row};
ghost use Rattle.std.specs.Prelude.{◌≡◌, ◌+◌, ℕ, List, None, length, true};
ghost use Rattle.csv.specs.declared.reader.Trim.TheVariants as trim;

use crate::fault::{Cause, CsvFault};
use crate::order::RawBook;
use crate::row::COLUMNS;
use crate::spelling::{is_header, read_row};
use csv::{ByteRecord, Error, ErrorKind, Reader, ReaderBuilder};
use pawn_book::ReplayableRows;
use std::alloc::Global;
use std::io::Read;

/// Returns the cause that corresponds to an error of the CSV reader.
fn cause_of(error: Error) -> Cause
    ensures cause { CauseOf (error_kind error) result }
{
    match error.kind() {
        ErrorKind::Io(_) => Cause::Read,
        ErrorKind::OutOfMemory => Cause::Memory,
        _ => Cause::Csv,
    }
}

/// Accepts the next record: the header if it is the first record, otherwise a row.
fn take_record(
    alloc: Global,
    raw: &mut RawBook,
    columns: &ByteRecord,
    first: bool,
) -> Result<(), Cause>
    ensures taking { Taking first (fields_of columns.now) (begun_of raw.old) result (begun_of raw.new) }
{
    if first {
        return if is_header(columns) {
            Ok(())
        } else {
            Err(Cause::Columns)
        };
    }
    if columns.len() != COLUMNS {
        return Err(Cause::Csv);
    }
    let Ok(row) = read_row(alloc, columns) else {
        return Err(Cause::Memory);
    };
    match row {
        None => Err(Cause::BadField),
        Some(row) => raw.accept(alloc, row),
    }
}

/// Returns the book at the end of a text. `row` is the number that the next row would have; a fault reports it. The
/// fault of a text without any record is `Columns`, because the header is missing.
fn finish_text(alloc: Global, raw: RawBook, row: u64) -> Result<ReplayableRows, CsvFault>
    ensures found { IfOk result (IsFinishedAs (begun_of raw)) }
    ensures fault { IfErr result (λ f. (f.row ≡ row)
        × ((records : List (List (List ℕ))) → length records + 1 ≡ row → EndsReadingAs records (begun_of raw) f.cause)) }
{
    if row == 1 {
        return Err(CsvFault {
            cause: Cause::Columns,
            row,
        });
    }
    match raw.finish(alloc) {
        Ok(book) => Ok(book),
        Err(cause) => Err(CsvFault { cause, row }),
    }
}

/// Accepts the records of a text one after another. Returns the number that the next row would have.
fn take_records<R: Read>(
    alloc: Global,
    csv_reader: &mut Reader<R>,
    raw: &mut RawBook,
) -> Result<u64, CsvFault>
    requires trim { reader_trim csv_reader.old ≡ trim.None }
    requires ready { Ready csv_reader.old }
    requires config { reader_config csv_reader.old ≡ default_config }
    requires flexible { is_flexible csv_reader.old ≡ true }
    requires state { reader_state csv_reader.old ≡ State.StartRecord }
    requires begun { begun_of raw.old ≡ None }
    ensures taken { IfOk result (λ row. IfSome (source_of R.remaining csv_reader.old) (λ text. (records : List (List (List ℕ))) × (rows : List Row)
        × AreRecords default_config State.StartRecord text records × AreTaken records rows (begun_of raw.new) × (length records + 1 ≡ row))) }
    ensures fault { IfErr result (λ f. IfSome (source_of R.remaining csv_reader.old) (λ text. IsFaultOf text f.cause f.row)) }
{
    let mut record = ByteRecord::new(alloc);
    for index in 0..u64::MAX - 1 {
        let row = index + 1;
        match csv_reader.read_byte_record(&mut record) {
            Err(error) => {
                let cause = cause_of(error);
                return Err(CsvFault { cause, row });
            }
            Ok(false) => return Ok(row),
            Ok(true) => {}
        }
        match take_record(alloc, raw, &record, index == 0) {
            Ok(()) => {}
            Err(cause) => return Err(CsvFault { cause, row }),
        }
    }
    // A text of so many rows fits into no memory.
    Err(CsvFault {
        cause: Cause::Memory,
        row: u64::MAX,
    })
}

/// Reads a book from a text. A byte order mark at the start is skipped. The error is the first fault of the text, with
/// its row. `Read` and `Memory` may occur at any row after the rows before it were accepted; they report the row that
/// would have been next.
pub fn read_book<R: Read + Drop>(alloc: Global, reader: R) -> Result<ReplayableRows, CsvFault>
    ensures found { IfOk result (λ k. IfSome (R.remaining reader) (λ text. IsTextOf (strip_bom text) k)) }
    ensures fault { IfErr result (λ f. IfSome (R.remaining reader) (λ text. IsFaultOf (strip_bom text) f.cause f.row)) }
{
    let mut csv_reader = ReaderBuilder::new()
        .has_headers(false)
        .flexible(true)
        .from_reader(alloc, reader);
    let mut raw = RawBook { begun: None };
    let row = take_records(alloc, &mut csv_reader, &mut raw)?;
    finish_text(alloc, raw, row)
}
