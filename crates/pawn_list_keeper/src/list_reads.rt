//! The reads of the trait `Keep`, over books in a list.
ghost use Rattle.pawn_list_keeper.specs.Common.{HandsOver};
ghost use Rattle.pawn_list_keeper.specs.Common.{IsShare, Visits, Whole, book_head, brief_of, confirmed_count};
ghost use Rattle.pawn_list_keeper.specs.Common.{entries_of, extensions_of, number_of, pledge_in, pledges_of};
ghost use Rattle.pawn_list_keeper.specs.Common.{terms_at, terms_of, with_reference};
ghost use Rattle.pawn_list_keeper.specs.Listed.{IsLeastAbove, book_at, listed_book};
ghost use Rattle.std.specs.Prelude.{◌≡◌, ◌+◌, ◌&&◌, if◌then◌else◌, IfOk, Some, map, nat_lt, option_map, unwrap_or};

use crate::kept::{Kept, kept_at, kept_pledge};
use crate::sheet::is_confirmed_for;
use pawn_book::{
    BookHead, Brief, Day, Entry, Extension, Flow, Number, Pledge, Reference, Terms, Visitor,
};
use std::alloc::AllocError;

/// The head of a book, if there is such a book. The only error is out of memory.
pub(crate) fn head_in(books: &[Kept], book: Number) -> Result<Option<BookHead>, AllocError>
    ensures value { IfOk result (λ head. head ≡ option_map book_head (book_at (map listed_book books.now) book)) }
{
    let Some(kept) = kept_at(books, book) else {
        return Ok(None);
    };
    let name = kept.made.name.copy()?;
    Ok(Some(BookHead {
        key: kept.made.key,
        name,
        capacity: kept.made.capacity,
        terms: kept.terms.len() as u64,
        pledges: kept.pledges.len() as u64,
        imported: kept.imported,
    }))
}

/// The terms under a version, counted from 1, if there are any.
fn kept_terms(terms: &[Terms], version: u64) -> Option<Terms>
    ensures value { result ≡ terms_at terms.now version }
{
    if version == 0 || version > terms.len() as u64 {
        return None;
    }
    Some(terms[version as usize - 1])
}

/// The terms that a book has under a version, if it has any.
pub(crate) fn terms_in(books: &[Kept], book: Number, version: u64) -> Option<Terms>
    ensures value { result ≡ terms_at (terms_of (book_at (map listed_book books.now) book)) version }
{
    let Some(kept) = kept_at(books, book) else {
        return None;
    };
    kept_terms(&kept.terms, version)
}

/// The number of the first pledge with this reference, if there is one.
fn number_with(pledges: &[Pledge], reference: &Reference) -> Option<Number>
    ensures value { result ≡ option_map (λ p. p.agreement.number) (with_reference pledges.now reference.now) }
{
    for pledge in pledges {
        if pledge.agreement().opening.reference.as_str() == reference.as_str() {
            return Some(pledge.agreement().number);
        }
    }
    None
}

/// The number of the first pledge of a book with this reference, if there is one.
pub(crate) fn number_in(books: &[Kept], book: Number, reference: &Reference) -> Option<Number>
    ensures value { result ≡ number_of (book_at (map listed_book books.now) book) reference.now }
{
    let Some(kept) = kept_at(books, book) else {
        return None;
    };
    number_with(&kept.pledges, reference)
}

/// A copy of the pledge with this number in a book, if there is one. The only error is out of memory.
pub(crate) fn pledge_copy(
    books: &[Kept],
    book: Number,
    number: Number,
) -> Result<Option<Pledge>, AllocError>
    ensures value { IfOk result (λ pledge. pledge ≡ pledge_in (book_at (map listed_book books.now) book) number) }
{
    let Some(pledge) = kept_pledge(books, book, number) else {
        return Ok(None);
    };
    let copy = pledge.copy()?;
    Ok(Some(copy))
}

/// The brief of the pledge with this number in a book, if there is one. The only error is out of memory.
pub(crate) fn brief_in(
    books: &[Kept],
    book: Number,
    number: Number,
) -> Result<Option<Brief>, AllocError>
    ensures value { IfOk result (λ brief. brief ≡ option_map brief_of (pledge_in (book_at (map listed_book books.now) book) number)) }
{
    let Some(pledge) = kept_pledge(books, book, number) else {
        return Ok(None);
    };
    let brief = pledge.brief()?;
    Ok(Some(brief))
}

/// The pledges of a book; none if there is no such book.
pub(crate) fn pledges_in(books: &[Kept], book: Number) -> &[Pledge]
    ensures value { result.now ≡ pledges_of (book_at (map listed_book books.now) book) }
{
    match kept_at(books, book) {
        None => &[],
        Some(kept) => &kept.pledges,
    }
}

/// The entries of a pledge in a book; none if there is no such pledge.
pub(crate) fn entries_in(books: &[Kept], book: Number, number: Number) -> &[Entry]
    ensures value { result.now ≡ entries_of (pledge_in (book_at (map listed_book books.now) book) number) }
{
    match kept_pledge(books, book, number) {
        None => &[],
        Some(pledge) => pledge.entries(),
    }
}

/// The extensions of a pledge in a book; none if there is no such pledge.
pub(crate) fn extensions_in(books: &[Kept], book: Number, number: Number) -> &[Extension]
    ensures value { result.now ≡ extensions_of (pledge_in (book_at (map listed_book books.now) book) number) }
{
    match kept_pledge(books, book, number) {
        None => &[],
        Some(pledge) => pledge.extensions(),
    }
}

/// How many pledges have a confirmed booking for a day and a window.
pub(crate) fn confirmed_count(pledges: &[Pledge], day: Day, window: u64) -> usize
    ensures value { result ≡ confirmed_count pledges.now day window }
{
    pledges
        .iter()
        .filter(|pledge| is_confirmed_for(pledge.standing().booking, day, window))
        .count()
}

/// The number itself, or 0 if there is none.
pub(crate) fn bound(after: Option<Number>) -> u32
    ensures value { result ≡ unwrap_or after 0 }
{
    match after {
        None => 0,
        Some(number) => number.get(),
    }
}

/// The least book number that is greater than `after`, if there is one.
pub(crate) fn next_number(books: &[Kept], after: u32) -> Option<Number>
    ensures least { IsLeastAbove (map listed_book books.now) after result }
{
    let mut next: Option<Number> = None;
    for kept in books {
        next = nearer_number(kept.number, after, next);
    }
    next
}

/// `number`, if it is greater than `after` and, where there is a `next`, less than `next`; otherwise `next`.
fn nearer_number(number: Number, after: u32, next: Option<Number>) -> Option<Number>
    ensures value { result ≡ (if nat_lt after number && nat_lt number (unwrap_or next (number + 1)) then Some number else next) }
{
    let is_less = match next {
        None => true,
        Some(least) => number.get() < least.get(),
    };
    if is_less && number.get() > after {
        return Some(number);
    }
    next
}

/// Passes the items to the visitor in order, until it answers `Stop`. Returns the visitor's last answer, or `Go` if there
/// are no items.
pub(crate) fn hand_over<T, V: Visitor<T>>(items: &[T], visitor: &mut V) -> Flow
    ensures hands { HandsOver V.step visitor.old items.now result visitor.new }
{
    for item in items {
        match visitor.visit(item) {
            Flow::Go => {}
            Flow::Stop => return Flow::Stop,
        }
    }
    Flow::Go
}

/// Passes the items to the visitor in order, until it answers `Stop`.
pub(crate) fn hand<T, V: Visitor<T>>(items: &[T], visitor: &mut V)
    ensures visits { Visits V.step visitor.old visitor.new (λ given flow. IsShare given flow Whole items.now) }
{
    for item in items {
        match visitor.visit(item) {
            Flow::Go => {}
            Flow::Stop => return,
        }
    }
}
