//! Writes the rows of a book and of its terms.
ghost use Rattle.pawn_saving.specs.Common.{filled_book, made_book, BookRows};
ghost use Rattle.pawn_saving.specs.RowWrites.{AddsRow, Replaces};
ghost use Rattle.pawn_tables.specs.At.{at_book};
ghost use Rattle.pawn_tables.specs.Common.{state, Rates, PledgeValue, BookValue, Lends};
ghost use Rattle.pawn_tables.specs.Rows.{book_row, number, terms_cells};
ghost use Rattle.pawn_tables.specs.Schema.{books_tree, terms_tree};
ghost use Rattle.std.specs.Prelude.{◌≡◌, ◌∷◌, List, is_ok, length};

use pawn_book::{KeepError, NewBook, Rates, Secret};
use pawn_tables::texts::{PUT_BOOK, PUT_TERMS, SET_IMPORT, SET_PLEDGES_COUNT, SET_TERMS_COUNT};
use pawn_tables::{in_32_bits, write};
use sqlite::{Alter, Transaction, params};

/// Inserts the row of a new book, which has neither terms nor pledges.
pub(crate) fn put_book<S: Alter>(
    tx: &mut Transaction<'_, S>,
    book: u32,
    new_book: &NewBook,
) -> Result<(), KeepError>
    ensures wrote { AddsRow (state S.Store tx.old.conn.now) (state S.Store tx.new.conn.now) result books_tree (book_row book (made_book new_book.now)) }
    ensures lent { Lends S.Store tx.old.conn tx.new.conn (is_ok result) }
{
    let key = new_book.key.word().to_be_bytes();
    let name = new_book.name.as_str();
    let capacity = new_book.capacity.get();
    write(tx, PUT_BOOK, params![book, key.as_slice(), name, capacity])
}

/// Updates how many versions of terms a book has.
pub(crate) fn set_terms_count<S: Alter>(
    tx: &mut Transaction<'_, S>,
    book: u32,
    count: u32,
) -> Result<(), KeepError>
    ensures wrote { (k : BookValue) (terms : List Rates) → length terms ≡ count → Replaces (state S.Store tx.old.conn.now)
        (state S.Store tx.new.conn.now) result books_tree (at_book book) (book_row book k) (book_row book (record k { terms = terms })) }
    ensures lent { Lends S.Store tx.old.conn tx.new.conn (is_ok result) }
{
    write(tx, SET_TERMS_COUNT, params![book, count])
}

/// Updates how many pledges a book has.
pub(crate) fn set_pledges_count<S: Alter>(
    tx: &mut Transaction<'_, S>,
    book: u32,
    count: u32,
) -> Result<(), KeepError>
    ensures wrote { (k : BookValue) (pledges : List PledgeValue) → length pledges ≡ count → Replaces (state S.Store tx.old.conn.now)
        (state S.Store tx.new.conn.now) result books_tree (at_book book) (book_row book k) (book_row book (record k { pledges = pledges })) }
    ensures lent { Lends S.Store tx.old.conn tx.new.conn (is_ok result) }
{
    write(tx, SET_PLEDGES_COUNT, params![book, count])
}

/// Notes an import in a book's row: its key, and how many versions of terms and pledges it brought.
pub(crate) fn set_import<S: Alter>(
    tx: &mut Transaction<'_, S>,
    book: u32,
    key: Secret,
    terms: u32,
    pledges: u32,
) -> Result<(), KeepError>
    ensures wrote { (k : BookValue) (rows : BookRows) → length rows.terms ≡ terms → length rows.pledges ≡ pledges → Replaces (state S.Store tx.old.conn.now)
        (state S.Store tx.new.conn.now) result books_tree (at_book book) (book_row book k) (book_row book (filled_book k key rows)) }
    ensures lent { Lends S.Store tx.old.conn tx.new.conn (is_ok result) }
{
    let word = key.word().to_be_bytes();
    write(
        tx,
        SET_IMPORT,
        params![book, terms, pledges, word.as_slice()],
    )
}

/// Inserts one version of a book's terms.
pub(crate) fn put_terms<S: Alter>(
    tx: &mut Transaction<'_, S>,
    book: u32,
    version: u32,
    rates: Rates,
) -> Result<(), KeepError>
    ensures wrote { AddsRow (state S.Store tx.old.conn.now) (state S.Store tx.new.conn.now) result terms_tree
        (number book ∷ number version ∷ terms_cells rates) }
    ensures lent { Lends S.Store tx.old.conn tx.new.conn (is_ok result) }
{
    let rate = in_32_bits(rates.rate)?;
    let before = in_32_bits(rates.keep_before)?;
    let after = in_32_bits(rates.keep_after)?;
    write(tx, PUT_TERMS, params![book, version, rate, before, after])
}
