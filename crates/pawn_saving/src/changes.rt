//! Writes a new book, new terms, or a pledge.
ghost use Rattle.pawn_saving.specs.Common.{AddTerms, MakeBook, PutPledge};
ghost use Rattle.pawn_saving.specs.Counted.{WritesRows};
ghost use Rattle.pawn_tables.specs.Common.{state, Lends};
ghost use Rattle.std.specs.Prelude.{is_ok};

use crate::books::{put_book, put_terms, set_terms_count};
use crate::lengths::lengths_of;
use crate::renewing::{add_pledge, renew_pledge};
use crate::stored::stored_within;
use pawn_book::{KeepError, NewBook, Number, Pledge, Terms};
use pawn_tables::in_32_bits;
use sqlite::{Alter, Transaction};

/// Writes a new book. Returns how many counted rows that adds.
#[tactic(auto, using(crate::proofs::Basics::lent_then))]
pub(crate) fn make_book<S: Alter>(
    tx: &mut Transaction<'_, S>,
    book: Number,
    new_book: &NewBook,
) -> Result<u32, KeepError>
    ensures wrote { WritesRows (state S.Store tx.old.conn.now) (state S.Store tx.new.conn.now) (MakeBook book new_book.now) result }
    ensures lent { Lends S.Store tx.old.conn tx.new.conn (is_ok result) }
{
    put_book(tx, book.get(), new_book)?;
    Ok(1)
}

/// Writes the next version of a book's terms. Returns how many counted rows that adds.
#[tactic(auto, using(crate::proofs::Basics::lent_then))]
pub(crate) fn add_terms<S: Alter>(
    tx: &mut Transaction<'_, S>,
    book: Number,
    version: u64,
    terms: Terms,
) -> Result<u32, KeepError>
    ensures wrote { WritesRows (state S.Store tx.old.conn.now) (state S.Store tx.new.conn.now) (AddTerms book version terms) result }
    ensures lent { Lends S.Store tx.old.conn tx.new.conn (is_ok result) }
{
    let version = in_32_bits(version)?;
    put_terms(tx, book.get(), version, terms.rates())?;
    set_terms_count(tx, book.get(), version)?;
    Ok(1)
}

/// Writes a pledge: the next of its book, or one that is stored already. Returns how many counted rows that adds.
#[tactic(auto, using(crate::proofs::Basics::lent_then))]
pub(crate) fn put_pledge<S: Alter>(
    tx: &mut Transaction<'_, S>,
    book: Number,
    number: Number,
    pledge: &Pledge,
) -> Result<u32, KeepError>
    ensures wrote { WritesRows (state S.Store tx.old.conn.now) (state S.Store tx.new.conn.now) (PutPledge book number pledge.now) result }
    ensures lent { Lends S.Store tx.old.conn tx.new.conn (is_ok result) }
{
    let lengths = lengths_of(pledge)?;
    let stored = stored_within(tx, book.get(), number.get(), lengths)?;
    if stored.lengths.secrets == 0 {
        return add_pledge(tx, book, number, pledge);
    }
    renew_pledge(tx, book, number, stored, pledge)
}
