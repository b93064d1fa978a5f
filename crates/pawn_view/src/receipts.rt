//! Writes the statements for the receipts that a bearer presents.
ghost use Rattle.pawn_view.specs.Common.{HasTermsOf, IsQuietView, IsSound, IsSteady, PledgeValue, PutsShare, Reads};
ghost use Rattle.pawn_view.specs.Common.{are_unknown, brief_of, call_end, get, live_at, pledge_in, write_failed};
ghost use Rattle.pawn_view.specs.Shown.{Shows, live_pledges, pledge_at, presentation_of, shown_of};
ghost use Rattle.pawn_view.specs.Text.{further_texts, shown_text, statement_text};
ghost use Rattle.std.specs.Prelude.{◌≡◌, ◌++◌, ◌∷◌, false, true, not, is_some, Some, None, IfOk, IfSome, IsErrOf};

use crate::statements::{put_statement, result_of_text};
use pawn_book::{Brief, Day, Keep, KeepError, Number, Receipt, live_brief, live_further_brief};
use pawn_writing::{ViewFault, Writing, put};
use std::io::Write;

/// The line for a receipt that is not live.
const UNKNOWN: &[u8] = b"Unknown receipt\n";

/// Returns the brief of the first receipt that is live, if at least one of them is.
fn first_live<K: Keep>(
    keep: &mut K,
    book: Number,
    receipts: &[Receipt],
) -> Result<Option<Brief>, KeepError>
    ensures reads { Reads K.keeping keep.old keep.new (λ h. IsSound h → IfOk result (λ brief.
        (is_some brief ≡ not (are_unknown (live_pledges h book receipts.now))) × IfSome brief (HasTermsOf (get h.books book)))) }
    ensures steady { IsSteady K.keeping keep.old result }
{
    for receipt in receipts {
        match live_brief(keep, book, receipt)? {
            Some(brief) => return Ok(Some(brief)),
            None => {}
        }
    }
    Ok(None)
}

/// Writes the statement of a receipt's pledge, or the line of an unknown receipt. `known` is the brief of a pledge of the
/// book, whose terms need not be read again.
fn put_shown<K: Keep, W: Write>(
    keep: &mut K,
    book: Number,
    receipt: &Receipt,
    known: &Brief,
    day: Day,
    writer: &mut Writing<W>,
) -> Result<(), KeepError>
    ensures shares { Reads K.keeping keep.old keep.new
        (λ h. IsSound h → HasTermsOf (get h.books book) known.now
        → PutsShare W.contents writer.old (shown_text day (live_at (pledge_in (get h.books book)) receipt.now)) (call_end result) writer.new) }
    ensures steady { IsSteady K.keeping keep.old result }
{
    match live_further_brief(keep, book, receipt, known) {
        Ok(Some(brief)) => put_statement(keep, book, receipt.number, &brief, day, writer),
        Ok(None) => {
            put(writer, UNKNOWN);
            Ok(())
        }
        Err(error) => Err(error),
    }
}

/// Writes the text for each of these receipts, each after a blank line. `known` is the brief of a pledge of the book.
fn put_further<K: Keep, W: Write>(
    keep: &mut K,
    book: Number,
    receipts: &[Receipt],
    known: &Brief,
    day: Day,
    writer: &mut Writing<W>,
) -> Result<(), KeepError>
    ensures shares { Reads K.keeping keep.old keep.new
        (λ h. IsSound h → HasTermsOf (get h.books book) known.now
        → PutsShare W.contents writer.old (further_texts day (live_pledges h book receipts.now)) (call_end result) writer.new) }
    ensures steady { IsSteady K.keeping keep.old result }
{
    for receipt in receipts {
        put(writer, b"\n");
        put_shown(keep, book, receipt, known, day, writer)?;
    }
    Ok(())
}

/// Writes the statement of the pledge to which this brief belongs, and then the text for each of these receipts.
fn put_from<K: Keep, W: Write>(
    keep: &mut K,
    book: Number,
    number: Number,
    brief: &Brief,
    receipts: &[Receipt],
    day: Day,
    writer: &mut Writing<W>,
) -> Result<(), KeepError>
    ensures shares { Reads K.keeping keep.old keep.new (λ h. IsSound h → (p : PledgeValue) → pledge_at h book number ≡ Some p → brief.now ≡ brief_of p
        → PutsShare W.contents writer.old (statement_text day p ++ further_texts day (live_pledges h book receipts.now)) (call_end result) writer.new) }
    ensures steady { IsSteady K.keeping keep.old result }
{
    put_statement(keep, book, number, brief, day, writer)?;
    put_further(keep, book, receipts, brief, day, writer)
}

/// Writes the line for a receipt that is not live, and then the text for each of the other receipts. If none of those
/// is live, nothing is written, and the error is `Unknown`.
fn show_others<K: Keep, W: Write>(
    keep: &mut K,
    book: Number,
    receipts: &[Receipt],
    day: Day,
    writer: &mut Writing<W>,
) -> Result<(), ViewFault>
    requires fine { write_failed writer.old ≡ false }
    ensures shows { Reads K.keeping keep.old keep.new
        (λ h. IsSound h → Shows W.contents writer.old (shown_of day (None ∷ live_pledges h book receipts.now)) result writer.new) }
    ensures write { IsErrOf result ViewFault.Write → write_failed writer.new ≡ true }
    ensures steady { IsQuietView K.keeping keep.old result }
{
    let Some(known) = first_live(keep, book, receipts)? else {
        return Err(ViewFault::Unknown);
    };
    put(writer, UNKNOWN);
    let done = put_further(keep, book, receipts, &known, day, writer);
    result_of_text(done, writer)
}

/// Writes what a bearer sees on a day for each of these receipts of a book, in their order: the statement of the
/// receipt's pledge, or the line `Unknown receipt` if the receipt is not live. A blank line separates two texts. The
/// keeper's content stays as it is.
///
/// The caller ensures that the writer has not failed before. Errors: `Unknown` if none of the receipts is live;
/// `Memory` and `Store` if the keeper does not answer; `Write` only if the writer failed during the call.
pub fn show_presented<K: Keep, W: Write>(
    keep: &mut K,
    book: Number,
    receipts: &[Receipt],
    day: Day,
    writer: &mut Writing<W>,
) -> Result<(), ViewFault>
    requires fine { write_failed writer.old ≡ false }
    ensures shows { Reads K.keeping keep.old keep.new
        (λ h. IsSound h → Shows W.contents writer.old (presentation_of h book receipts.now day) result writer.new) }
    ensures write { IsErrOf result ViewFault.Write → write_failed writer.new ≡ true }
    ensures steady { IsQuietView K.keeping keep.old result }
{
    let [first, rest @ ..] = receipts else {
        return Err(ViewFault::Unknown);
    };
    match live_brief(keep, book, first)? {
        Some(brief) => {
            let done = put_from(keep, book, first.number, &brief, rest, day, writer);
            result_of_text(done, writer)
        }
        None => show_others(keep, book, rest, day, writer),
    }
}
