//! The export of a book as comma-separated rows.
ghost use Rattle.pawn_csv.specs.Common.{BookValue, Go, IsSound, IsSteady, Reads, Stop, book_head, call_end, flat_map};
ghost use Rattle.pawn_csv.specs.Common.{get, pledges_of, terms_of};
ghost use Rattle.pawn_csv.specs.Exports.{Exports, PutsRowItem, sink_result, text_of};
ghost use Rattle.pawn_csv.specs.Rows.{pledge_csv_rows, terms_rows};
ghost use Rattle.pawn_csv.specs.Sent.{PutsRowsShare, has_ended, text_of_row};
ghost use Rattle.pawn_writing.specs.Ends.{write_failed, writing_inner};
ghost use Rattle.pawn_writing.specs.Fault.{IsQuietView};
ghost use Rattle.std.specs.Prelude.{◌≡◌, ◌++◌, false, true, Some, length, IsErrOf};

use crate::row_writing::{Sink, put_book, put_header, put_item, put_terms};
use pawn_book::{BookHead, Flow, Keep, KeepError, Number, RowItem, Visitor};
use pawn_writing::ViewFault;
use std::alloc::Global;
use std::io::Write;

/// Writes the rows of a book's text to any writer of bytes.
#[derive(Drop)]
pub struct RowWriter<W> {
    sink: Sink<W>,
}

impl<W> RowWriter<W> {
    /// Wraps a writer. No row has been written yet. Writing a row allocates memory.
    pub fn new(alloc: Global, inner: W) -> RowWriter<W>
        ensures inner { writing_inner result.sink.writer ≡ inner }
        ensures ended { has_ended result.sink ≡ false }
    {
        RowWriter {
            sink: Sink::new(alloc, inner),
        }
    }

    /// Returns the inner writer.
    pub fn into_inner(self) -> W
        ensures answer { result ≡ writing_inner self.sink.writer }
    {
        self.sink.into_inner()
    }
}

impl<W: Write> Visitor<RowItem> for RowWriter<W> {
    ghost step = { λ v item flow w. PutsRowItem W.contents v item flow w };

    fn visit(&mut self, item: &RowItem) -> Flow {
        put_item(&mut self.sink, item);
        if self.sink.has_ended() {
            Flow::Stop
        } else {
            Flow::Go
        }
    }
}

/// Writes the rows of versions 1 to `count` of a book's terms.
fn put_versions<K: Keep, W: Write>(
    keep: &mut K,
    book: Number,
    count: u64,
    rows: &mut RowWriter<W>,
) -> Result<(), KeepError>
    ensures shares { Reads K.keeping keep.old keep.new (λ h. count ≡ length (terms_of (get h.books book))
        → PutsRowsShare W.contents rows.old.sink (flat_map text_of_row (terms_rows 1 (terms_of (get h.books book)))) (call_end result) rows.new.sink) }
    ensures steady { IsSteady K.keeping keep.old result }
{
    for index in 0..count {
        let Some(terms) = keep.terms(book, index + 1)? else {
            return Ok(());
        };
        put_terms(&mut rows.sink, index + 1, terms.rates());
    }
    Ok(())
}

/// Writes all rows of a book's pledges.
fn put_pledges<K: Keep, W: Write>(
    keep: &mut K,
    book: Number,
    rows: &mut RowWriter<W>,
) -> Result<(), KeepError>
    ensures shares { Reads K.keeping keep.old keep.new (λ h. PutsRowsShare W.contents rows.old.sink
        (flat_map text_of_row (flat_map pledge_csv_rows (pledges_of (get h.books book)))) (call_end result) rows.new.sink) }
    ensures steady { IsSteady K.keeping keep.old result }
{
    keep.rows_each(book, rows)
}

/// Writes the rows after a book's first row: its terms and its pledges.
fn put_rows<K: Keep, W: Write>(
    keep: &mut K,
    book: Number,
    head: &BookHead,
    rows: &mut RowWriter<W>,
) -> Result<(), KeepError>
    ensures shares { Reads K.keeping keep.old keep.new
        (λ h. (at : BookValue) → get h.books book ≡ Some at → head.now ≡ book_head at → PutsRowsShare W.contents rows.old.sink
        (flat_map text_of_row (terms_rows 1 at.terms) ++ flat_map text_of_row (flat_map pledge_csv_rows at.pledges)) (call_end result) rows.new.sink) }
    ensures steady { IsSteady K.keeping keep.old result }
{
    put_versions(keep, book, head.terms, rows)?;
    put_pledges(keep, book, rows)
}

/// Returns the result of an export: `Write` if the writer failed, otherwise `Memory` if memory ran out for a row,
/// otherwise the keeper's error, if any.
fn result_of_export<W>(done: Result<(), KeepError>, sink: &Sink<W>) -> Result<(), ViewFault>
    ensures answer { result ≡ sink_result done sink.now }
{
    if sink.has_failed() {
        return Err(ViewFault::Write);
    }
    if sink.has_ended() {
        return Err(ViewFault::Memory);
    }
    Ok(done?)
}

/// Writes the text of a book, row by row. The keeper's content stays as it is.
///
/// The caller ensures that no earlier row of this writer is incomplete. Errors: `Unknown` if there is no such book;
/// `Memory` if memory runs out; `Store` if the keeper does not answer; `Write` only if the writer failed during the
/// call. After any error but `Unknown`, a prefix of the text was written, possibly none of it.
pub fn export<K: Keep, W: Write>(
    keep: &mut K,
    book: Number,
    rows: &mut RowWriter<W>,
) -> Result<(), ViewFault>
    requires fine { has_ended rows.old.sink ≡ false }
    ensures exports { Reads K.keeping keep.old keep.new (λ h. IsSound h → Exports W.contents rows.old.sink (text_of h book) result rows.new.sink) }
    ensures write { IsErrOf result ViewFault.Write → write_failed rows.new.sink.writer ≡ true }
    ensures steady { IsQuietView K.keeping keep.old result }
{
    let Some(head) = keep.book_head(book)? else {
        return Err(ViewFault::Unknown);
    };
    put_header(&mut rows.sink);
    put_book(&mut rows.sink, head.terms, head.pledges);
    let done = put_rows(keep, book, &head, rows);
    result_of_export(done, &rows.sink)
}
