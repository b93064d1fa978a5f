//! An import: the rows that it adds, and how they are put into a book of the list.
ghost use Rattle.pawn_list_keeper.specs.Common.{BookValue, Each, IsChecked, pledge_row_count};
ghost use Rattle.pawn_list_keeper.specs.Listed.{HasChange, book_at, listed_book};
ghost use Rattle.std.specs.Prelude.{◌≡◌, ◌+◌, IfOk, OnErr, OnOk, Some, length, map, sum_by};

use crate::kept::{Kept, place_of_book};
use crate::saving::row_count;
use pawn_book::{Change, Imported, Number, Pledge, Rates, ReplayableRows, Secret, Terms};
use std::alloc::{AllocError, Global};

/// How many rows an import adds: its versions of terms, and the rows of its pledges.
pub(crate) fn count_rows(rows: &ReplayableRows) -> u64
    ensures value { result ≡ length rows.now.terms + sum_by pledge_row_count rows.now.pledges }
{
    rows.know_replayable();
    let mut count = rows.terms().len() as u64;
    for pledge in rows.pledges() {
        count += row_count(pledge);
    }
    count
}

/// The terms with these rates, which are all within their limits. The only error is out of memory.
fn terms_of(alloc: Global, rates: &[Rates]) -> Result<Vec<Terms>, AllocError>
    requires checked { Each IsChecked rates.now }
    ensures same { IfOk result (λ terms. terms.items ≡ rates.now) }
{
    let mut terms = Vec::new(alloc);
    for numbers in rates {
        let Ok(checked) = numbers.check() else {
            unreachable!();
        };
        terms.push(checked)?;
    }
    Ok(terms)
}

/// A copy of each pledge. The only error is out of memory.
fn copies_of(alloc: Global, pledges: &[Pledge]) -> Result<Vec<Pledge>, AllocError>
    ensures same { IfOk result (λ copies. copies.items ≡ pledges.now) }
{
    let mut copies = Vec::new(alloc);
    for pledge in pledges {
        let copy = pledge.copy()?;
        copies.push(copy)?;
    }
    Ok(copies)
}

/// Replaces a book's terms and pledges by the rows of an import, and notes the import's key. Everything that allocates
/// is done before the book is changed, so that the books are as before if out of memory.
pub(crate) fn fill_book(
    alloc: Global,
    books: &mut Vec<Kept>,
    book: Number,
    key: Secret,
    rows: &ReplayableRows,
) -> Result<(), AllocError>
    requires has_book { (at : BookValue) × (book_at (map listed_book books.old.items) book ≡ Some at) }
    ensures ok { OnOk result (HasChange (map listed_book books.old.items) (Change.ImportBook book key rows.now) (map listed_book books.new.items)) }
    ensures err { OnErr result (map listed_book books.new.items ≡ map listed_book books.old.items) }
{
    rows.know_replayable();
    let terms = terms_of(alloc, rows.terms())?;
    let pledges = copies_of(alloc, rows.pledges())?;
    let Some(place) = place_of_book(books, book) else {
        unreachable!();
    };
    let kept = &mut books[place];
    kept.imported = Some(Imported {
        key,
        pledges: pledges.len() as u64,
    });
    kept.terms = terms;
    kept.pledges = pledges;
    Ok(())
}
