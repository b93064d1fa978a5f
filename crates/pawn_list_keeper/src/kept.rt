//! A book of the list, and the search for a book or for one of its pledges.
ghost use Rattle.pawn_book.specs.BookStep.{pledge_from, pledge_in};
ghost use Rattle.pawn_list_keeper.specs.Listed.{IsPlace, book_at, listed_book};
ghost use Rattle.std.specs.Prelude.{◌≡◌, ◌<◌, IfNone, IfSome, MatchOption, None, Some, length, map};

use pawn_book::{Imported, NewBook, Number, Pledge, Terms};

/// A book in the list: its number, what it was made with, its versions of terms and its pledges in order, and the
/// import that filled it, if one did.
#[derive(Drop)]
pub struct Kept {
    pub(crate) number: Number,
    pub(crate) made: NewBook,
    pub(crate) terms: Vec<Terms>,
    pub(crate) pledges: Vec<Pledge>,
    pub(crate) imported: Option<Imported>,
}

/// The place of the first book with this number, counted from 0, if there is one.
pub(crate) fn place_of_book(books: &[Kept], book: Number) -> Option<usize>
    ensures within { IfSome result (λ place. place < length books.now) }
    ensures some { IfSome result (IsPlace (map listed_book books.now) book) }
    ensures none { IfNone result (book_at (map listed_book books.now) book ≡ None) }
{
    for (place, kept) in books.iter().enumerate() {
        if kept.number == book {
            return Some(place);
        }
    }
    None
}

/// The first book with this number, if there is one.
pub(crate) fn kept_at(books: &[Kept], book: Number) -> Option<&Kept>
    ensures found { MatchOption result (book_at (map listed_book books.now) book ≡ None)
        (λ kept. book_at (map listed_book books.now) book ≡ Some (listed_book kept.now).1) }
{
    match place_of_book(books, book) {
        None => None,
        Some(place) => Some(&books[place]),
    }
}

/// The pledge with this number, if there is one. Pledges are numbered from 1 in order.
fn pledge_at(pledges: &[Pledge], number: Number) -> Option<&Pledge>
    ensures found { MatchOption result (pledge_from 1 pledges.now number ≡ None) (λ pledge. pledge_from 1 pledges.now number ≡ Some pledge.now) }
{
    let place = number.get() as usize - 1;
    if place < pledges.len() {
        Some(&pledges[place])
    } else {
        None
    }
}

/// The pledge with this number in a book, if there is one.
pub(crate) fn kept_pledge(books: &[Kept], book: Number, number: Number) -> Option<&Pledge>
    ensures found { MatchOption result (pledge_in (book_at (map listed_book books.now) book) number ≡ None)
        (λ pledge. pledge_in (book_at (map listed_book books.now) book) number ≡ Some pledge.now) }
{
    match kept_at(books, book) {
        None => None,
        Some(kept) => pledge_at(&kept.pledges, number),
    }
}
