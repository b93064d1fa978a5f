//! Plans of imports.
ghost use Rattle.pawn_book.specs.BookStep.{BookValue, book_head, import_rows, is_empty};
ghost use Rattle.pawn_book.specs.Common.{Each};
ghost use Rattle.pawn_book.specs.HostStep.{Host};
ghost use Rattle.pawn_book.specs.Plans.{Plans};
ghost use Rattle.pawn_book.specs.Rows.{AreReplayable};
ghost use Rattle.pawn_book.specs.Sound.{HasTextsAndWords, IsSound, IsWord};
ghost use Rattle.std.specs.FinMap.{get};
ghost use Rattle.std.specs.Prelude.{◌≡◌, IfErr, IfOk, Err, Some, length};

use crate::change::{BookHead, Change, Planned};
use crate::refusal::Refusal;
use crate::replayable_rows::ReplayableRows;
use crate::reply::Reply;
use pawn_pledge::{Number, Secret};

/// Whether the book has neither terms nor pledges.
fn is_empty(head: &BookHead) -> bool
    ensures value { result ≡ is_empty head.now }
{
    head.terms == 0 && head.pledges == 0
}

/// Plans an import. A book is filled once: a repeat of the import that filled it gets the answer of the first time, and
/// any other import is refused as `BookNotEmpty`.
pub(crate) fn plan_import(
    book: Number,
    head: &BookHead,
    key: Secret,
    rows: &ReplayableRows,
) -> Result<Planned, Refusal>
    ensures plans { (h : Host) (at : BookValue) → IsSound h → get h.books book ≡ Some at
        → head.now ≡ book_head at → Plans h book (import_rows (book_head at) book key rows.now at.imported) result }
    ensures quiet { result ≡ Err Refusal.Store → ⊥ }
{
    match head.imported {
        Some(imported) => {
            if imported.key != key {
                return Err(Refusal::BookNotEmpty);
            }
            Ok(Planned {
                change: None,
                reply: Reply::BookFilled(imported.pledges),
            })
        }
        None => {
            if !is_empty(head) {
                return Err(Refusal::BookNotEmpty);
            }
            fill_book(book, key, rows)
        }
    }
}

/// The plan that fills an empty book with these rows.
fn fill_book(book: Number, key: Secret, rows: &ReplayableRows) -> Result<Planned, Refusal>
    ensures planned { IfOk result (λ planned. planned ≡ record {
      change = Some (Change.ImportBook book key rows.now);
      reply = Reply.BookFilled (length rows.now.pledges);
    }) }
    ensures memory { IfErr result (λ why. why ≡ Refusal.Memory) }
    ensures key { IsWord key }
    ensures replayable { AreReplayable rows.now.terms rows.now.pledges }
    ensures texts_and_words { Each HasTextsAndWords rows.now.pledges }
{
    // Reading the key gives a proof that it has 128 bits.
    let _word = key.word();
    rows.know_replayable();
    let reply = Reply::BookFilled(rows.pledges().len() as u64);
    let Ok(rows) = rows.copy() else {
        return Err(Refusal::Memory);
    };
    Ok(Planned {
        change: Some(Change::ImportBook {
            book,
            import_key: key,
            rows,
        }),
        reply,
    })
}
