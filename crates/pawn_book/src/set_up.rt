//! Plans of books and of their terms.
ghost use Rattle.pawn_book.specs.BookStep.{BookValue, are_same_rates, book_head, is_same_book, make_book, next_terms};
ghost use Rattle.pawn_book.specs.BookStep.{put_terms};
ghost use Rattle.pawn_book.specs.Common.{IsChecked};
ghost use Rattle.pawn_book.specs.Keeping.{IsQuiet, Reads};
ghost use Rattle.pawn_book.specs.Plans.{Plans};
ghost use Rattle.pawn_book.specs.Rows.{terms_at};
ghost use Rattle.pawn_book.specs.Sound.{IsSound};
ghost use Rattle.std.specs.FinMap.{get};
ghost use Rattle.std.specs.Prelude.{◌≡◌, IfOk};

use crate::change::{BookHead, Change, Planned};
use crate::gates::unwell_refusal;
use crate::keep::Keep;
use crate::limits::MOST_TERMS;
use crate::refusal::Refusal;
use crate::reply::Reply;
use crate::request::{NewBook, NewTerms};
use pawn_pledge::{Number, Rates, Terms};

/// Plans a new book. If there already is a book with this number, a repeat with the same key, name and capacity gets
/// the answer of the first time, and any other request is refused as `BookTaken`.
pub(crate) fn plan_book<K: Keep>(
    keep: &mut K,
    book: Number,
    new_book: &NewBook,
) -> Result<Planned, Refusal>
    ensures reads { Reads K.keeping keep.old keep.new (λ h. IsSound h → Plans h book (make_book (get h.books book) book new_book.now) result) }
    ensures steady { IsQuiet K.keeping keep.old result }
{
    book.know_limits();
    let reply = Reply::BookMade(book);
    match keep.book_head(book) {
        Err(error) => Err(unwell_refusal(error)),
        Ok(Some(head)) => {
            if !is_same_book(&head, new_book) {
                return Err(Refusal::BookTaken);
            }
            Ok(Planned {
                change: None,
                reply,
            })
        }
        Ok(None) => {
            let Ok(new_book) = new_book.copy() else {
                return Err(Refusal::Memory);
            };
            Ok(Planned {
                change: Some(Change::MakeBook { book, new_book }),
                reply,
            })
        }
    }
}

/// Whether a book has this key, name and capacity.
fn is_same_book(head: &BookHead, new_book: &NewBook) -> bool
    ensures value { result ≡ is_same_book head.now new_book.now }
{
    head.key == new_book.key
        && head.name.as_str() == new_book.name.as_str()
        && head.capacity == new_book.capacity
}

/// Plans terms under a version. If the book already has terms under it, a repeat with the same terms gets the answer of
/// the first time, and other terms are refused as `TermsSeq`.
pub(crate) fn plan_terms<K: Keep>(
    keep: &mut K,
    book: Number,
    head: &BookHead,
    new_terms: &NewTerms,
) -> Result<Planned, Refusal>
    ensures reads { Reads K.keeping keep.old keep.new (λ h. IsSound h → (at : BookValue) → get h.books book ≡ Some at → head.now ≡ book_head at
        → Plans h book (put_terms at book new_terms.now (terms_at at.terms new_terms.now.version)) result) }
    ensures steady { IsQuiet K.keeping keep.old result }
{
    let version = new_terms.version;
    let reply = Reply::TermsPut(version);
    match keep.terms(book, version) {
        Err(error) => Err(unwell_refusal(error)),
        Ok(Some(terms)) => {
            if !are_same_rates(terms.rates(), new_terms.rates) {
                return Err(Refusal::TermsSeq);
            }
            Ok(Planned {
                change: None,
                reply,
            })
        }
        Ok(None) => match next_terms(head.terms, new_terms) {
            Err(refusal) => Err(refusal),
            Ok(terms) => Ok(Planned {
                change: Some(Change::AddTerms {
                    book,
                    version,
                    terms,
                }),
                reply,
            }),
        },
    }
}

/// Whether these are the same three numbers.
fn are_same_rates(a: Rates, b: Rates) -> bool
    ensures value { result ≡ are_same_rates a b }
{
    a.rate == b.rate && a.keep_before == b.keep_before && a.keep_after == b.keep_after
}

/// The terms, if they may be the next version of a book that has this many `versions` and does not have this one.
fn next_terms(versions: u64, new_terms: &NewTerms) -> Result<Terms, Refusal>
    ensures value { result ≡ next_terms versions new_terms.now }
    ensures checked { IfOk result IsChecked }
{
    if new_terms.version == 0 || new_terms.version - 1 > versions {
        return Err(Refusal::TermsSeq);
    }
    if versions >= MOST_TERMS {
        return Err(Refusal::TermsFull);
    }
    match new_terms.rates.check() {
        Ok(terms) => Ok(terms),
        Err(fault) => Err(Refusal::Terms(fault)),
    }
}
