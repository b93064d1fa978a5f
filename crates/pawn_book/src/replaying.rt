//! The checks whether rows are replayable: whether a sound book is still sound after it is filled with them.
ghost use Rattle.pawn_book.specs.BookStep.{BookValue, filled_book};
ghost use Rattle.pawn_book.specs.Common.{DoNotFall, Each, IsChecked, IsReachable, list_any};
ghost use Rattle.pawn_book.specs.Limits.{most_pledges, most_terms};
ghost use Rattle.pawn_book.specs.Rows.{AreDistinct, AreNumberedFrom, AreReplayable, IsUnder, is_same_text};
ghost use Rattle.pawn_book.specs.Rows.{references_of, version_of};
ghost use Rattle.pawn_book.specs.Sound.{IsSoundBook, IsWord};
ghost use Rattle.std.specs.Prelude.{◌≡◌, ◌≤◌, ◌↔◌, ℕ, IsTrue, length};

use crate::book_rows::BookRows;
use crate::limits::{MOST_PLEDGES, MOST_TERMS};
use pawn_pledge::{Parts, Rates, Reference};

/// Whether rows are those of a reachable book, so that a sound book is still sound after it is filled with them.
/// References are compared in pairs, so the time grows with the square of the number of pledges.
pub fn replayable(rows: &BookRows) -> bool
    ensures answer { IsTrue result ↔ AreReplayable rows.now.terms rows.now.pledges }
    ensures sound { (book : BookValue) (key : ℕ) → IsSoundBook book → IsWord key → (IsTrue result ↔ IsSoundBook (filled_book book key rows.now)) }
{
    are_replayable(rows.terms.as_slice(), rows.pledges.as_slice())
}

/// The same as `replayable`, for terms and pledges as slices.
fn are_replayable(terms: &[Rates], pledges: &[Parts]) -> bool
    ensures answer { IsTrue result ↔ AreReplayable terms.now pledges.now }
{
    fit_together(terms, pledges) && are_reachable(pledges)
}

/// Whether rows are replayable if each of their pledges is reachable.
pub(crate) fn fit_together(terms: &[Rates], pledges: &[Parts]) -> bool
    ensures fits { IsTrue result → Each IsReachable pledges.now → AreReplayable terms.now pledges.now }
    ensures needed { AreReplayable terms.now pledges.now → IsTrue result }
{
    are_within_counts(terms, pledges)
        && are_within_limits(terms)
        && are_numbered(pledges)
        && do_not_fall(pledges)
        && are_under(terms, pledges)
        && are_distinct(pledges)
}

/// Whether a book may have this many versions of terms and pledges.
fn are_within_counts(terms: &[Rates], pledges: &[Parts]) -> bool
    ensures answer { IsTrue result ↔ ((length terms.now ≤ most_terms) × (length pledges.now ≤ most_pledges)) }
{
    terms.len() as u64 <= MOST_TERMS && pledges.len() as u64 <= MOST_PLEDGES
}

/// Whether all terms are within the limits.
fn are_within_limits(terms: &[Rates]) -> bool
    ensures answer { IsTrue result ↔ Each IsChecked terms.now }
{
    for rates in terms {
        if rates.check().is_err() {
            return false;
        }
    }
    true
}

/// Whether pledges are numbered 1, 2, ..
fn are_numbered(pledges: &[Parts]) -> bool
    ensures answer { IsTrue result ↔ AreNumberedFrom 1 pledges.now }
{
    for (place, parts) in pledges.iter().enumerate() {
        if parts.agreement.number.get() as usize != place + 1 {
            return false;
        }
    }
    true
}

/// Whether the versions of terms do not decrease from one pledge to the next.
fn do_not_fall(pledges: &[Parts]) -> bool
    ensures answer { IsTrue result ↔ DoNotFall version_of 0 pledges.now }
{
    let mut version = 0;
    for parts in pledges {
        if parts.agreement.version < version {
            return false;
        }
        version = parts.agreement.version;
    }
    true
}

/// Whether the terms of a pledge are those of its version.
fn is_under(terms: &[Rates], parts: &Parts) -> bool
    ensures answer { IsTrue result ↔ IsUnder terms.now parts.now }
{
    let version = parts.agreement.version;
    if version == 0 || version > terms.len() as u64 {
        return false;
    }
    terms[version as usize - 1] == parts.agreement.terms
}

/// Whether the terms of each pledge are those of its version.
fn are_under(terms: &[Rates], pledges: &[Parts]) -> bool
    ensures answer { IsTrue result ↔ Each (IsUnder terms.now) pledges.now }
{
    for parts in pledges {
        if !is_under(terms, parts) {
            return false;
        }
    }
    true
}

/// Whether each pledge is reachable and within its limits.
fn are_reachable(pledges: &[Parts]) -> bool
    ensures answer { IsTrue result ↔ Each IsReachable pledges.now }
{
    for parts in pledges {
        if !parts.is_reachable() {
            return false;
        }
    }
    true
}

/// Whether one of the pledges has this reference.
fn has_reference(pledges: &[Parts], reference: &Reference) -> bool
    ensures value { result ≡ list_any (is_same_text reference.now) (references_of pledges.now) }
{
    for parts in pledges {
        if reference.as_str() == parts.agreement.opening.reference.as_str() {
            return true;
        }
    }
    false
}

/// Whether no two pledges have the same reference.
fn are_distinct(pledges: &[Parts]) -> bool
    ensures answer { IsTrue result ↔ AreDistinct (references_of pledges.now) }
{
    for (place, parts) in pledges.iter().enumerate() {
        if has_reference(&pledges[place + 1..], &parts.agreement.opening.reference) {
            return false;
        }
    }
    true
}
