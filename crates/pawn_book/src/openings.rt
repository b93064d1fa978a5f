//! Plans of new pledges.
ghost use Rattle.pawn_book.specs.BookStep.{BookValue, book_head, first_receipt, is_same_opening, newest, next_pledge};
ghost use Rattle.pawn_book.specs.BookStep.{take_pledge, with_reference};
ghost use Rattle.pawn_book.specs.Common.{IsSaid, IsReachable, IsUtf8};
ghost use Rattle.pawn_book.specs.HostStep.{Host};
ghost use Rattle.pawn_book.specs.Keeping.{IsQuiet, IsSteady, Reads, pledges_of};
ghost use Rattle.pawn_book.specs.Plans.{IsUnwell, Plans};
ghost use Rattle.pawn_book.specs.Sound.{IsSound, IsWord};
ghost use Rattle.pawn_pledge.specs.declared.command.Stamp.{Stamp as StampValue};
ghost use Rattle.pawn_terms.specs.Calendar.{IsDayNumber};
ghost use Rattle.std.specs.FinMap.{get};
ghost use Rattle.std.specs.Prelude.{◌≡◌, ℕ, Err, IfOk, Some};

use crate::change::{BookHead, Change, Planned};
use crate::fault::KeepError;
use crate::gates::{know_stamp, unwell_refusal};
use crate::keep::Keep;
use crate::limits::MOST_PLEDGES;
use crate::refusal::Refusal;
use crate::reply::Reply;
use pawn_pledge::{
    Number, Opening, Pledge, Receipt, Reference, Refusal as PledgeRefusal, Stamp, Terms,
};
use std::alloc::Global;

/// Plans a new pledge. If a pledge already has the reference, an equal opening is answered with the first receipt of
/// that pledge, and any other opening is refused as `RefTaken`.
pub(crate) fn plan_pledge<K: Keep>(
    alloc: Global,
    keep: &mut K,
    book: Number,
    head: &BookHead,
    opening: &Opening,
    stamp: &Stamp,
) -> Result<Planned, Refusal>
    ensures reads { Reads K.keeping keep.old keep.new (λ h. IsSound h → (at : BookValue) → get h.books book ≡ Some at → head.now ≡ book_head at
        → Plans h book (take_pledge at book opening.now stamp.now (with_reference at.pledges opening.now.reference)) result) }
    ensures steady { IsQuiet K.keeping keep.old result }
{
    know_given(opening, stamp);
    match find_reference(keep, book, &opening.reference) {
        Err(error) => Err(unwell_refusal(error)),
        Ok(Some(pledge)) => plan_again(&pledge, opening),
        Ok(None) => match new_pledge(alloc, keep, book, head, opening, stamp) {
            Err(refusal) => Err(refusal),
            Ok(pledge) => {
                let reply = Reply::Opened(first_receipt(&pledge));
                let number = pledge.agreement().number;
                Ok(Planned {
                    change: Some(Change::PutPledge {
                        book,
                        number,
                        pledge,
                    }),
                    reply,
                })
            }
        },
    }
}

/// Plans an opening whose reference `pledge` already has.
fn plan_again(pledge: &Pledge, opening: &Opening) -> Result<Planned, Refusal>
    ensures plans { (h : Host) (b : ℕ) (at : BookValue) (stamp : StampValue) → Plans h b (take_pledge at b opening.now stamp (Some pledge.now)) result }
    ensures store { result ≡ Err Refusal.Store → ⊥ }
{
    if !is_same_opening(&pledge.agreement().opening, opening) {
        return Err(Refusal::RefTaken);
    }
    Ok(Planned {
        change: None,
        reply: Reply::Opened(first_receipt(pledge)),
    })
}

/// Gives a proof that the texts of an opening are UTF-8, that the word of a stamp has 128 bits, and that its day is in
/// range.
fn know_given(opening: &Opening, stamp: &Stamp)
    ensures reference { IsUtf8 opening.now.reference }
    ensures article { IsUtf8 opening.now.article }
    ensures word { IsWord stamp.now.word }
    ensures day { IsDayNumber stamp.now.day }
{
    let _ = opening.reference.as_str();
    let _ = opening.article.as_str();
    know_stamp(stamp);
}

/// The pledge with this reference in a book, if there is one.
fn find_reference<K: Keep>(
    keep: &mut K,
    book: Number,
    reference: &Reference,
) -> Result<Option<Pledge>, KeepError>
    ensures reads { Reads K.keeping keep.old keep.new
        (λ h. IsSound h → IfOk result (λ pledge. pledge ≡ with_reference (pledges_of (get h.books book)) reference.now)) }
    ensures steady { IsSteady K.keeping keep.old result }
{
    match keep.find_ref(book, reference) {
        Err(error) => Err(error),
        Ok(None) => Ok(None),
        Ok(Some(number)) => keep.pledge(book, number),
    }
}

/// A new pledge, with the next number of the book and under its newest terms.
fn new_pledge<K: Keep>(
    alloc: Global,
    keep: &mut K,
    book: Number,
    head: &BookHead,
    opening: &Opening,
    stamp: &Stamp,
) -> Result<Pledge, Refusal>
    ensures reads { Reads K.keeping keep.old keep.new (λ h. (at : BookValue) → get h.books book ≡ Some at → head.now ≡ book_head at
        → IsSaid IsUnwell (next_pledge head.now opening.now stamp.now (newest at.terms)) result) }
    ensures reachable { IfOk result IsReachable }
    ensures steady { IsQuiet K.keeping keep.old result }
{
    match keep.terms(book, head.terms) {
        Err(error) => Err(unwell_refusal(error)),
        Ok(None) => Err(Refusal::NoTerms),
        Ok(Some(terms)) => start(alloc, head, opening, terms, stamp),
    }
}

/// A new pledge under these terms, with the next number of a book that has this head.
fn start(
    alloc: Global,
    head: &BookHead,
    opening: &Opening,
    terms: Terms,
    stamp: &Stamp,
) -> Result<Pledge, Refusal>
    ensures taken { IsSaid IsUnwell (next_pledge head.now opening.now stamp.now (Some terms)) result }
    ensures reachable { IfOk result IsReachable }
    ensures store { result ≡ Err Refusal.Store → ⊥ }
{
    let Some(number) = Number::new(head.pledges.min(MOST_PLEDGES) + 1) else {
        unreachable!();
    };
    let Ok(opening) = opening.copy() else {
        return Err(Refusal::Memory);
    };
    match Pledge::start(alloc, number, opening, head.terms, terms, stamp) {
        Err(PledgeRefusal::Memory) => Err(Refusal::Memory),
        Err(refusal) => Err(Refusal::Pledge(refusal)),
        Ok(pledge) => {
            if head.pledges >= MOST_PLEDGES {
                Err(Refusal::PledgesFull)
            } else {
                Ok(pledge)
            }
        }
    }
}

/// Whether two openings are the same except for their references.
fn is_same_opening(a: &Opening, b: &Opening) -> bool
    ensures value { result ≡ is_same_opening a.now b.now }
{
    a.article.as_str() == b.article.as_str()
        && a.kind == b.kind
        && a.agreed == b.agreed
        && a.five_days == b.five_days
}

/// The receipt that was issued when the pledge was taken.
fn first_receipt(pledge: &Pledge) -> Receipt
    ensures value { result ≡ first_receipt pledge.now }
{
    let secret = match pledge.secrets() {
        [first, ..] => first.secret,
        [] => unreachable!(),
    };
    Receipt {
        number: pledge.agreement().number,
        secret,
    }
}
