//! Checks the pledges of a book one after the other, and counts their rows.
ghost use Rattle.pawn_base.specs.Lists.{last_by};
ghost use Rattle.pawn_book.specs.BookStep.{BookValue, pledge_from};
ghost use Rattle.pawn_book.specs.HostStep.{pledge_row_count};
ghost use Rattle.pawn_book.specs.Keeping.{Reads, number_of};
ghost use Rattle.pawn_book.specs.Limits.{most_pledges};
ghost use Rattle.pawn_book.specs.Rows.{IsUnder, version_of};
ghost use Rattle.pawn_book.specs.Sound.{HasTextsAndWords};
ghost use Rattle.pawn_check.specs.Checking.{FindsSound, FitsAt, IsFront, IsQuietCheck, most_pledge_rows};
ghost use Rattle.pawn_pledge.specs.Pledge.{PledgeValue};
ghost use Rattle.pawn_pledge.specs.Replayable.{IsReachable};
ghost use Rattle.std.specs.FinMap.{get};
ghost use Rattle.std.specs.Prelude.{◌≡◌, ◌≤◌, ◌+◌, ◌*◌, ◌↔◌, ℕ, Some, IsTrue, IfOk, length, take};

use crate::fault::CheckFault;
use pawn_book::{Keep, Number, Pledge, Reference};

/// What is noted of a pledge that was checked: the version of its terms, and how many counted rows it has.
#[derive(Clone, Copy)]
pub struct Step {
    pub version: u64,
    pub rows: u64,
}

/// How many counted rows a pledge has.
fn row_count(pledge: &Pledge) -> u64
    requires reachable { IsReachable pledge.now }
    ensures value { result ≡ pledge_row_count pledge.now }
    ensures few { result ≤ most_pledge_rows }
{
    let booking = match pledge.standing().booking {
        Some(_) => 1,
        None => 0,
    };
    1 + pledge.entries().len() as u64 + pledge.secrets().len() as u64 + booking
}

/// The pledge with this number. It is `Damaged` if there is no such pledge.
fn read_pledge<K: Keep>(keep: &mut K, book: Number, number: Number) -> Result<Pledge, CheckFault>
    ensures reads { Reads K.keeping keep.old keep.new (λ h. (k : BookValue) → get h.books book ≡ Some k → number ≤ length k.pledges
        → FindsSound h result (λ pledge. pledge_from 1 k.pledges number ≡ Some pledge)) }
    ensures reachable { IfOk result IsReachable }
    ensures quiet { IsQuietCheck K.keeping keep.old result }
{
    number.know_limits();
    match keep.pledge(book, number)? {
        Some(pledge) => Ok(pledge),
        None => Err(CheckFault::Damaged),
    }
}

/// Proves that the texts, the secrets and the day of a pledge are within their ranges. The body only reads them, which
/// makes the invariants of their types known.
fn know_texts_and_words(pledge: &Pledge)
    ensures texts_and_words { HasTextsAndWords pledge.now }
{
    let agreement = pledge.agreement();
    let _ = agreement.opening.reference.as_str();
    let _ = agreement.opening.article.as_str();
    let _ = agreement.taken.count();
    for issued in pledge.secrets() {
        let _word = issued.secret.word();
    }
}

/// Whether the book's terms under the pledge's version are those that the pledge has.
fn is_under<K: Keep>(keep: &mut K, book: Number, pledge: &Pledge) -> Result<bool, CheckFault>
    ensures reads { Reads K.keeping keep.old keep.new
        (λ h. (k : BookValue) → get h.books book ≡ Some k → FindsSound h result (λ under. IsTrue under ↔ IsUnder k.terms pledge.now)) }
    ensures quiet { IsQuietCheck K.keeping keep.old result }
{
    let agreement = pledge.agreement();
    match keep.terms(book, agreement.version)? {
        Some(terms) => Ok(terms.rates() == agreement.terms),
        None => Ok(false),
    }
}

/// Whether the pledge with this number is the one that the keeper finds by the reference.
fn is_first<K: Keep>(
    keep: &mut K,
    book: Number,
    number: Number,
    reference: &Reference,
) -> Result<bool, CheckFault>
    ensures reads { Reads K.keeping keep.old keep.new
        (λ h. (k : BookValue) → get h.books book ≡ Some k → FindsSound h result (λ first. IsTrue first ↔ (number_of (Some k) reference.now ≡ Some number))) }
    ensures quiet { IsQuietCheck K.keeping keep.old result }
{
    match keep.find_ref(book, reference)? {
        Some(found) => Ok(found == number),
        None => Ok(false),
    }
}

/// Checks the next pledge of a book. `version` is that of the pledge before it, or 0: a later pledge must not have
/// terms of an earlier version. The error is `Damaged` if the pledge cannot belong to a sound book.
fn next_step<K: Keep>(
    keep: &mut K,
    book: Number,
    number: Number,
    version: u64,
) -> Result<Step, CheckFault>
    ensures reads { Reads K.keeping keep.old keep.new (λ h. (k : BookValue) (place : ℕ) → get h.books book ≡ Some k → number ≡ place + 1
        → number ≤ length k.pledges → version ≡ last_by version_of 0 (take place k.pledges) → FindsSound h result (λ step. (p : PledgeValue) × (pledge_from 1
        k.pledges number ≡ Some p) × FitsAt k number p × (version ≤ step.version) × (step.version ≡ version_of p) × (step.rows ≡ pledge_row_count p))) }
    ensures few { IfOk result (λ step. step.rows ≤ most_pledge_rows) }
    ensures quiet { IsQuietCheck K.keeping keep.old result }
{
    let pledge = read_pledge(keep, book, number)?;
    know_texts_and_words(&pledge);
    let agreement = pledge.agreement();
    let next = agreement.version;
    if agreement.number != number || next < version {
        return Err(CheckFault::Damaged);
    }
    let rows = row_count(&pledge);
    let under = is_under(keep, book, &pledge)?;
    let first = is_first(keep, book, number, &agreement.opening.reference)?;
    if !under || !first {
        return Err(CheckFault::Damaged);
    }
    Ok(Step {
        version: next,
        rows,
    })
}

/// Checks the pledges 1 to `count` of a book. Returns how many counted rows they have.
pub(crate) fn pledges_rows<K: Keep>(
    keep: &mut K,
    book: Number,
    count: u64,
) -> Result<u64, CheckFault>
    requires few { count ≤ most_pledges }
    ensures reads { Reads K.keeping keep.old keep.new (λ h. (k : BookValue) → get h.books book ≡ Some k → count ≡ length k.pledges
        → FindsSound h result (λ rows. (version : ℕ) × IsFront k k.pledges version rows)) }
    ensures few { IfOk result (λ rows. rows ≤ count * most_pledge_rows) }
    ensures quiet { IsQuietCheck K.keeping keep.old result }
{
    let mut version = 0;
    let mut rows = 0;
    for place in 0..count {
        let Some(number) = Number::new(place + 1) else {
            return Err(CheckFault::Damaged);
        };
        let step = next_step(keep, book, number, version)?;
        version = step.version;
        rows += step.rows;
    }
    Ok(rows)
}
