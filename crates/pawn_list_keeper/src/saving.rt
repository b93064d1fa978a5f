//! Changes, made to the books of a list, and how many rows the books have after one.
ghost use Rattle.pawn_list_keeper.specs.Common.{BookValue, pledge_row_count, put_from};
ghost use Rattle.pawn_list_keeper.specs.Listed.{Fits, HasChange, added_rows, book_at, listed_book, replaced_rows};
ghost use Rattle.std.specs.Prelude.{◌≡◌, ◌≤◌, ◌+◌, None, OnErr, OnOk, Some, length, map};

use crate::kept::{Kept, kept_pledge, place_of_book};
use crate::list_import::{count_rows, fill_book};
use pawn_book::{Change, NewBook, Number, Pledge, Terms};
use std::alloc::{AllocError, Global};

/// How many rows a pledge counts for: one for itself, one for each entry and secret, and one for its booking if it has
/// one.
pub(crate) fn row_count(pledge: &Pledge) -> u64
    ensures value { result ≡ pledge_row_count pledge.now }
{
    let booking = match pledge.standing().booking {
        None => 0,
        Some(_) => 1,
    };
    1 + pledge.entries().len() as u64 + pledge.secrets().len() as u64 + booking
}

/// How many rows there are after a change, if there are `rows` before it.
pub(crate) fn rows_with(books: &[Kept], rows: u64, change: &Change) -> u128
    requires counted { replaced_rows (map listed_book books.now) change.now ≤ rows + added_rows change.now }
    requires fits { Fits (map listed_book books.now) change.now }
    ensures rows { result + replaced_rows (map listed_book books.now) change.now ≡ rows + added_rows change.now }
{
    match change {
        Change::MakeBook { .. } => u128::from(rows) + 1,
        Change::AddTerms { .. } => u128::from(rows) + 1,
        Change::PutPledge {
            book,
            number,
            pledge,
        } => {
            let before = match kept_pledge(books, *book, *number) {
                None => 0,
                Some(kept) => row_count(kept),
            };
            u128::from(rows) + u128::from(row_count(pledge)) - u128::from(before)
        }
        Change::ImportBook { rows: imported, .. } => {
            u128::from(rows) + u128::from(count_rows(imported))
        }
    }
}

/// Makes a change to the books. If out of memory, the books are as before.
pub(crate) fn make_change(
    alloc: Global,
    books: &mut Vec<Kept>,
    change: &Change,
) -> Result<(), AllocError>
    requires fits { Fits (map listed_book books.old.items) change.now }
    ensures ok { OnOk result (HasChange (map listed_book books.old.items) change.now (map listed_book books.new.items)) }
    ensures err { OnErr result (map listed_book books.new.items ≡ map listed_book books.old.items) }
{
    match change {
        Change::MakeBook { book, new_book } => push_book(alloc, books, *book, new_book),
        Change::AddTerms {
            book,
            version,
            terms,
        } => push_terms(books, *book, *version, *terms),
        Change::PutPledge {
            book,
            number,
            pledge,
        } => put_pledge(books, *book, *number, pledge),
        Change::ImportBook {
            book,
            import_key,
            rows,
        } => { fill_book(alloc, books, *book, *import_key, rows) },
    }
}

/// Adds a book without terms and pledges. If out of memory, the books are as before.
fn push_book(
    alloc: Global,
    books: &mut Vec<Kept>,
    book: Number,
    new_book: &NewBook,
) -> Result<(), AllocError>
    requires none { book_at (map listed_book books.old.items) book ≡ None }
    ensures ok { OnOk result (HasChange (map listed_book books.old.items) (Change.MakeBook book new_book.now) (map listed_book books.new.items)) }
    ensures err { OnErr result (books.new.items ≡ books.old.items) }
{
    let made = new_book.copy()?;
    let kept = Kept {
        number: book,
        made,
        terms: Vec::new(alloc),
        pledges: Vec::new(alloc),
        imported: None,
    };
    books.push(kept)?;
    Ok(())
}

/// Adds the next version of a book's terms. If out of memory, the books are as before.
fn push_terms(
    books: &mut Vec<Kept>,
    book: Number,
    version: u64,
    terms: Terms,
) -> Result<(), AllocError>
    requires has_book { (at : BookValue) × (book_at (map listed_book books.old.items) book ≡ Some at) }
    ensures ok { OnOk result (HasChange (map listed_book books.old.items) (Change.AddTerms book version terms) (map listed_book books.new.items)) }
    ensures err { OnErr result (map listed_book books.new.items ≡ map listed_book books.old.items) }
{
    let Some(place) = place_of_book(books, book) else {
        unreachable!();
    };
    let kept = &mut books[place];
    match kept.terms.push(terms) {
        Ok(()) => Ok(()),
        Err(_) => Err(AllocError),
    }
}

/// Puts a pledge into a book at its number: as the next, or in place of the one that has it.
fn put_pledge(
    books: &mut Vec<Kept>,
    book: Number,
    number: Number,
    pledge: &Pledge,
) -> Result<(), AllocError>
    requires has_book { (at : BookValue) × (book_at (map listed_book books.old.items) book ≡ Some at) × (number ≤ 1 + length at.pledges) }
    ensures ok { OnOk result (HasChange (map listed_book books.old.items) (Change.PutPledge book number pledge.now) (map listed_book books.new.items)) }
    ensures err { OnErr result (map listed_book books.new.items ≡ map listed_book books.old.items) }
{
    let Some(place) = place_of_book(books, book) else {
        unreachable!();
    };
    let pledge = pledge.copy()?;
    let kept = &mut books[place];
    put(&mut kept.pledges, number, pledge)
}

/// Puts a pledge at its number: as the next, or in place of the one that has it.
fn put(pledges: &mut Vec<Pledge>, number: Number, pledge: Pledge) -> Result<(), AllocError>
    requires within { number ≤ 1 + length pledges.old.items }
    ensures ok { OnOk result (pledges.new.items ≡ put_from 1 pledges.old.items number pledge) }
    ensures err { OnErr result (pledges.new.items ≡ pledges.old.items) }
{
    let place = number.get() as usize - 1;
    if place < pledges.len() {
        pledges[place] = pledge;
        return Ok(());
    }
    pledges.push(pledge)?;
    Ok(())
}
