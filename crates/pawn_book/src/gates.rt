//! The checks of access: by a book's key, and by a live receipt.
ghost use Rattle.pawn_book.specs.BookStep.{live_at, only_live, pledge_in};
ghost use Rattle.pawn_book.specs.Common.{PledgeValue};
ghost use Rattle.pawn_book.specs.Keeping.{HasTermsOf, IsQuiet, IsSteady, Reads};
ghost use Rattle.pawn_book.specs.Plans.{Gates, IsUnwell};
ghost use Rattle.pawn_book.specs.Sound.{IsSound, IsWord};
ghost use Rattle.pawn_pledge.specs.Brief.{brief_of};
ghost use Rattle.pawn_terms.specs.Calendar.{IsRequestDay};
ghost use Rattle.std.specs.FinMap.{get};
ghost use Rattle.std.specs.Prelude.{◌≡◌, IfOk, Option, option_map};

use crate::change::BookHead;
use crate::fault::KeepError;
use crate::keep::Keep;
use crate::refusal::Refusal;
use pawn_pledge::{Brief, Number, Pledge, Receipt, Secret, Stamp};

/// The head of a book, for the broker, who has its key. Refused as `NoSuchBook` if there is no such book, or the key is
/// not the book's.
pub fn gate<K: Keep>(keep: &mut K, book: Number, key: Secret) -> Result<BookHead, Refusal>
    ensures reads { Reads K.keeping keep.old keep.new (λ h. Gates (get h.books book) key result) }
    ensures steady { IsQuiet K.keeping keep.old result }
{
    match keep.book_head(book) {
        Err(error) => Err(unwell_refusal(error)),
        Ok(None) => Err(Refusal::NoSuchBook),
        Ok(Some(head)) => {
            if head.key == key {
                Ok(head)
            } else {
                Err(Refusal::NoSuchBook)
            }
        }
    }
}

/// The pledge, if this is its live secret.
fn live_pledge(pledge: Option<Pledge>, secret: &Secret) -> Option<Pledge>
    ensures live { result ≡ only_live secret.now pledge }
{
    match pledge {
        Some(pledge) if pledge.is_live(secret) => Some(pledge),
        Some(_) | None => None,
    }
}

/// The pledge of a receipt, if the receipt is live in the book.
pub fn find_live<K: Keep>(
    keep: &mut K,
    book: Number,
    receipt: &Receipt,
) -> Result<Option<Pledge>, KeepError>
    ensures reads { Reads K.keeping keep.old keep.new (λ h. IfOk result (λ pledge. pledge ≡ live_at (pledge_in (get h.books book)) receipt.now)) }
    ensures steady { IsSteady K.keeping keep.old result }
{
    let pledge = keep.pledge(book, receipt.number)?;
    Ok(live_pledge(pledge, &receipt.secret))
}

/// The brief, if this is its live secret.
fn brief_if_live(brief: Option<Brief>, secret: Secret) -> Option<Brief>
    ensures live { (pledge : Option PledgeValue) → brief ≡ option_map brief_of pledge → result ≡ option_map brief_of (only_live secret pledge) }
{
    match brief {
        Some(brief) if brief.fields().live == Some(secret) => Some(brief),
        _ => None,
    }
}

/// The brief of a receipt's pledge, if the receipt is live in the book. Nothing is promised for a host that is not
/// sound, as in `Keep::brief`.
pub fn live_brief<K: Keep>(
    keep: &mut K,
    book: Number,
    receipt: &Receipt,
) -> Result<Option<Brief>, KeepError>
    ensures reads { Reads K.keeping keep.old keep.new
        (λ h. IsSound h → IfOk result (λ brief. brief ≡ option_map brief_of (live_at (pledge_in (get h.books book)) receipt.now))) }
    ensures steady { IsSteady K.keeping keep.old result }
{
    let brief = keep.brief(book, receipt.number)?;
    Ok(brief_if_live(brief, receipt.secret))
}

/// The same as `live_brief`, for a caller that has the brief of another pledge of this book, `known`: the terms need not
/// be read again. Nothing is promised for a book that has other terms under that version, as in `Keep::further_brief`.
pub fn live_further_brief<K: Keep>(
    keep: &mut K,
    book: Number,
    receipt: &Receipt,
    known: &Brief,
) -> Result<Option<Brief>, KeepError>
    ensures reads { Reads K.keeping keep.old keep.new (λ h. IsSound h → HasTermsOf (get h.books book) known.now
        → IfOk result (λ brief. brief ≡ option_map brief_of (live_at (pledge_in (get h.books book)) receipt.now))) }
    ensures steady { IsSteady K.keeping keep.old result }
{
    let brief = keep.further_brief(book, receipt.number, known)?;
    Ok(brief_if_live(brief, receipt.secret))
}

/// The refusal for an error of the keeper.
pub(crate) fn unwell_refusal(error: KeepError) -> Refusal
    ensures unwell { IsUnwell result }
    ensures memory { error ≡ KeepError.Memory → result ≡ Refusal.Memory }
{
    match error {
        KeepError::Memory => Refusal::Memory,
        KeepError::Store(_) => Refusal::Store,
    }
}

/// Gives a proof that the word of a stamp has 128 bits, and that a request may name its day.
pub(crate) fn know_stamp(stamp: &Stamp)
    ensures word { IsWord stamp.now.word }
    ensures day { IsRequestDay stamp.now.day }
{
    let _word = stamp.word;
    let _ = stamp.day.day();
}
