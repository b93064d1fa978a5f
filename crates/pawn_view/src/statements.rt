//! Writes the statement of a pledge.
ghost use Rattle.pawn_view.specs.Common.{IsQuietView, IsSound, IsSteady, PledgeValue, Puts, PutsShare, Reads, brief_of};
ghost use Rattle.pawn_view.specs.Common.{brief_owing, brief_status, call_end, result_of_text, write_failed};
ghost use Rattle.pawn_view.specs.Shown.{PutsElement, Shows, pledge_at, statement_of, open_or_last};
ghost use Rattle.pawn_view.specs.Text.{first_lines, state_lines, statement_text, extended_line, entry_line};
ghost use Rattle.std.specs.Prelude.{◌≡◌, ◌≤◌, false, true, Some, max, IsErrOf};

use crate::lines::{
    put_booking, put_closing, put_day, put_entry, put_extended, put_held, put_kind, put_number,
    put_owed, put_status, put_text,
};
use pawn_book::{Brief, Closing, Day, Entry, Extension, Flow, Keep, KeepError, Number, Visitor};
use pawn_writing::{ViewFault, Writing, visit_entries, visit_extensions};
use std::io::Write;

/// A visitor that writes a line for each entry or extension that it visits.
#[derive(Drop)]
struct StatementLines<'a, W> {
    writer: &'a mut Writing<W>,
}

impl<'a, W: Write> Visitor<Entry> for StatementLines<'a, W> {
    ghost step = { λ v e flow w. PutsElement W.contents entry_line v e flow w };

    fn visit(&mut self, entry: &Entry) -> Flow {
        put_entry(self.writer, entry);
        self.writer.flow()
    }
}

impl<'a, W: Write> Visitor<Extension> for StatementLines<'a, W> {
    ghost step = { λ v e flow w. PutsElement W.contents extended_line v e flow w };

    fn visit(&mut self, extension: &Extension) -> Flow {
        put_extended(self.writer, extension);
        self.writer.flow()
    }
}

/// Writes the lines before the extensions: the number, the article, the kind, the day taken and the end of the period.
fn put_first<W: Write>(writer: &mut Writing<W>, brief: &Brief)
    ensures puts { Puts W.contents writer.old (first_lines brief.now.agreement brief.now.ends) writer.new }
{
    let fields = brief.fields();
    let agreement = &fields.agreement;
    put_number(writer, b"Pledge ", agreement.number.get());
    put_text(writer, b"Article ", agreement.opening.article.as_str());
    put_kind(writer, agreement.opening.kind);
    put_day(writer, b"Taken ", agreement.taken);
    put_day(writer, b"Ends ", fields.ends);
}

/// Writes the lines between the extensions and the entries: the state of the pledge on the day.
fn put_state<W: Write>(writer: &mut Writing<W>, brief: &Brief, day: Day)
    requires later { brief.now.totals.day ≤ day }
    ensures puts { Puts W.contents writer.old (state_lines (brief_status brief.now day) (brief_owing brief.now day) brief.now.standing) writer.new }
{
    let status = brief.status(day);
    let owing = brief.owing(day);
    put_status(writer, status);
    put_owed(writer, status, &owing);
    let standing = &brief.fields().standing;
    put_held(writer, standing.held);
    put_booking(writer, standing.booking);
    put_closing(writer, standing.closing, owing.total);
}

/// Returns the day that the statement describes. It is never before the day of the last entry, because the brief does
/// not say what was owed earlier.
fn shown_day(brief: &Brief, day: Day) -> Day
    ensures answer { result ≡ max (open_or_last brief.now.standing.closing brief.now.standing.last day) brief.now.totals.day }
{
    let fields = brief.fields();
    let shown = match fields.standing.closing {
        Closing::Open => day.max(fields.standing.last),
        _ => fields.standing.last,
    };
    shown.max(fields.totals.day)
}

/// Writes the statement of the pledge to which this brief belongs.
pub(crate) fn put_statement<K: Keep, W: Write>(
    keep: &mut K,
    book: Number,
    number: Number,
    brief: &Brief,
    day: Day,
    writer: &mut Writing<W>,
) -> Result<(), KeepError>
    ensures shares { Reads K.keeping keep.old keep.new (λ h. IsSound h → (p : PledgeValue) → pledge_at h book number ≡ Some p → brief.now ≡ brief_of p
        → PutsShare W.contents writer.old (statement_text day p) (call_end result) writer.new) }
    ensures steady { IsSteady K.keeping keep.old result }
{
    put_first(writer, brief);
    let mut lines = StatementLines { writer };
    visit_extensions(keep, book, number, brief, &mut lines)?;
    put_state(lines.writer, brief, shown_day(brief, day));
    visit_entries(keep, book, number, brief, &mut lines)
}

/// Writes the statement of a pledge as requested on this day. The keeper's content stays as it is.
///
/// The caller ensures that the writer has not failed before. Errors: `Unknown` if there is no such pledge; `Memory` and
/// `Store` if the keeper does not answer; `Write` only if the writer failed during the call.
pub fn show_statement<K: Keep, W: Write>(
    keep: &mut K,
    book: Number,
    number: Number,
    day: Day,
    writer: &mut Writing<W>,
) -> Result<(), ViewFault>
    requires fine { write_failed writer.old ≡ false }
    ensures shows { Reads K.keeping keep.old keep.new (λ h. IsSound h → Shows W.contents writer.old (statement_of h book number day) result writer.new) }
    ensures write { IsErrOf result ViewFault.Write → write_failed writer.new ≡ true }
    ensures steady { IsQuietView K.keeping keep.old result }
{
    let Some(brief) = keep.brief(book, number)? else {
        return Err(ViewFault::Unknown);
    };
    let done = put_statement(keep, book, number, &brief, day, writer);
    result_of_text(done, writer)
}

/// Returns the result of a text after its lines were written: `Write` if the writer failed, otherwise the keeper's
/// error, if any.
pub(crate) fn result_of_text<W>(
    done: Result<(), KeepError>,
    writer: &Writing<W>,
) -> Result<(), ViewFault>
    ensures answer { result ≡ result_of_text done (write_failed writer.now) }
{
    if writer.has_failed() {
        return Err(ViewFault::Write);
    }
    Ok(done?)
}
