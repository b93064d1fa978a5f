//! Checks the books of a store one after the other, and counts them.
ghost use Rattle.pawn_base.specs.Lists.{Each};
ghost use Rattle.pawn_base.specs.Text.{IsText};
ghost use Rattle.pawn_book.specs.BookStep.{BookValue, book_head};
ghost use Rattle.pawn_book.specs.HostStep.{rows};
ghost use Rattle.pawn_book.specs.Keeping.{IsNextBook, Reads, terms_of};
ghost use Rattle.pawn_book.specs.Limits.{IsCapacity, most_name_bytes, most_pledges};
ghost use Rattle.pawn_book.specs.Rows.{terms_at};
ghost use Rattle.pawn_book.specs.Sound.{IsWord};
ghost use Rattle.pawn_check.specs.Checking.{FindsSound, IsQuietCheck, ChecksBooks, ChecksBook};
ghost use Rattle.pawn_pledge.specs.Number.{IsNumber};
ghost use Rattle.pawn_terms.specs.Terms.{IsChecked};
ghost use Rattle.std.specs.FinMap.{get};
ghost use Rattle.std.specs.Prelude.{◌≡◌, ◌≤◌, IfOk, IfSome, Some, length, unwrap_or};
ghost use Rattle.std.specs.Str.{IsUtf8};

use crate::counts::{BookCounts, Counts};
use crate::fault::CheckFault;
use crate::pledges::pledges_rows;
use pawn_book::{BookHead, Keep, MOST_PLEDGES, MOST_TERMS, Number, Rates};

/// Proves that the number, the keys, the name and the capacity of a book are within their limits. The body only reads
/// the fields, which makes the invariants of their types known.
fn know_head(book: Number, head: &BookHead)
    ensures number { IsNumber book }
    ensures key { IsWord head.now.key }
    ensures imported { IfSome head.now.imported (λ i. IsWord i.key) }
    ensures utf8 { IsUtf8 head.now.name }
    ensures name { IsText most_name_bytes head.now.name }
    ensures capacity { IsCapacity head.now.capacity }
{
    book.know_limits();
    let _ = head.key.word();
    let _ = head.name.as_str();
    let _ = head.capacity.get();
    if let Some(imported) = head.imported {
        let _ = imported.key.word();
    }
}

/// The three numbers of a version of the terms, if the book has it.
fn rates_under<K: Keep>(
    keep: &mut K,
    book: Number,
    version: u64,
) -> Result<Option<Rates>, CheckFault>
    ensures reads { Reads K.keeping keep.old keep.new (λ h. FindsSound h result (λ rates. rates ≡ terms_at (terms_of (get h.books book)) version)) }
    ensures checked { IfOk result (λ rates. IfSome rates IsChecked) }
    ensures quiet { IsQuietCheck K.keeping keep.old result }
{
    match keep.terms(book, version)? {
        Some(terms) => Ok(Some(terms.rates())),
        None => Ok(None),
    }
}

/// Checks that a book has the versions of terms 1 to `count`. It is `Damaged` if one is missing.
fn find_terms<K: Keep>(keep: &mut K, book: Number, count: u64) -> Result<(), CheckFault>
    ensures reads { Reads K.keeping keep.old keep.new
        (λ h. (k : BookValue) → get h.books book ≡ Some k → count ≡ length k.terms → FindsSound h result (λ _. Each IsChecked k.terms)) }
    ensures quiet { IsQuietCheck K.keeping keep.old result }
{
    for version in 0..count {
        let Some(_) = rates_under(keep, book, version + 1)? else {
            return Err(CheckFault::Damaged);
        };
    }
    Ok(())
}

/// The head of a book that the keeper has listed. It is `Damaged` if there is none.
fn head_of<K: Keep>(keep: &mut K, book: Number) -> Result<BookHead, CheckFault>
    ensures reads { Reads K.keeping keep.old keep.new (λ h. (k : BookValue) → get h.books book ≡ Some k → FindsSound h result (λ head. head ≡ book_head k)) }
    ensures quiet { IsQuietCheck K.keeping keep.old result }
{
    match keep.book_head(book)? {
        Some(head) => Ok(head),
        None => Err(CheckFault::Damaged),
    }
}

/// Checks a book, and counts its pledges and its rows. The error is `Damaged` only if some book is not sound.
fn book_counts<K: Keep>(keep: &mut K, book: Number) -> Result<BookCounts, CheckFault>
    ensures reads { Reads K.keeping keep.old keep.new (λ h. ChecksBook h book result) }
    ensures few { IfOk result (λ counts. counts.pledges ≤ most_pledges) }
    ensures quiet { IsQuietCheck K.keeping keep.old result }
{
    let head = head_of(keep, book)?;
    know_head(book, &head);
    if head.terms > MOST_TERMS || head.pledges > MOST_PLEDGES {
        return Err(CheckFault::Damaged);
    }
    find_terms(keep, book, head.terms)?;
    let rows = pledges_rows(keep, book, head.pledges)?;
    Ok(BookCounts {
        pledges: head.pledges,
        rows: 1 + head.terms + rows,
    })
}

/// The book with the least number that is greater than `after`, if there is one.
fn book_after<K: Keep>(keep: &mut K, after: Option<Number>) -> Result<Option<Number>, CheckFault>
    ensures reads { Reads K.keeping keep.old keep.new (λ h. FindsSound h result (λ next. IsNextBook h (unwrap_or after 0) next)) }
    ensures quiet { IsQuietCheck K.keeping keep.old result }
{
    Ok(keep.next_book(after)?)
}

/// How many counted rows all books have, as the keeper reports it.
fn counted_rows<K: Keep>(keep: &mut K) -> Result<u64, CheckFault>
    ensures reads { Reads K.keeping keep.old keep.new (λ h. FindsSound h result (λ count. count ≡ rows h)) }
    ensures quiet { IsQuietCheck K.keeping keep.old result }
{
    Ok(keep.rows()?)
}

/// Checks that each book of a store is sound, and counts the books, their pledges and their rows. The keeper's content
/// does not change. One pledge is in memory at a time; its terms and its reference are looked up for each.
///
/// Errors: `Damaged` only if a book is not sound, `Memory` if out of memory, `Store` if the store fails.
pub fn check<K: Keep>(keep: &mut K) -> Result<Counts, CheckFault>
    ensures checks { Reads K.keeping keep.old keep.new (λ h. ChecksBooks h result) }
    ensures quiet { IsQuietCheck K.keeping keep.old result }
{
    let rows = counted_rows(keep)?;
    let mut left = rows;
    let mut above = 0;
    let mut after = None;
    let mut books = 0;
    let mut pledges = 0;
    while let Some(book) = book_after(keep, after)? {
        let has = book_counts(keep, book)?;
        if book.get() <= above || has.rows > left {
            return Err(CheckFault::Damaged);
        }
        left -= has.rows;
        above = book.get();
        after = Some(book);
        books += 1;
        pledges += has.pledges;
    }
    if left > 0 {
        return Err(CheckFault::Damaged);
    }
    Ok(Counts {
        books,
        pledges,
        rows,
    })
}
