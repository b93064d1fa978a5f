//! Writes an import into a book.
ghost use Rattle.pawn_saving.specs.Common.{ImportBook};
ghost use Rattle.pawn_saving.specs.Counted.{WritesRows};
ghost use Rattle.pawn_saving.specs.Importing.{AddsPledges};
ghost use Rattle.pawn_saving.specs.Putting.{AddsPledge};
ghost use Rattle.pawn_saving.specs.RowWrites.{Carries};
ghost use Rattle.pawn_tables.specs.Common.{state, Lends};
ghost use Rattle.pawn_tables.specs.Rows.{number_in_book};
ghost use Rattle.std.specs.Prelude.{◌≡◌, ◌+◌, IfOk, is_ok};

use crate::books::set_import;
use crate::lengths::length_in_32_bits;
use crate::list_inserts::put_versions;
use crate::putting::put_whole;
use pawn_book::{KeepError, Number, Pledge, ReplayableRows, Secret};
use pawn_tables::DATABASE_FAILED;
use sqlite::{Alter, Transaction};

/// The sum of two counts. `DATABASE_FAILED` if 32 bits cannot hold it.
fn sum_in_32_bits(one: u32, other: u32) -> Result<u32, KeepError>
    ensures value { IfOk result (λ n. n ≡ one + other) }
{
    match one.checked_add(other) {
        Some(n) => Ok(n),
        None => Err(DATABASE_FAILED),
    }
}

/// Inserts all rows of a pledge. Returns how many of them are counted.
fn put_pledge<S: Alter>(
    tx: &mut Transaction<'_, S>,
    book: u32,
    pledge: &Pledge,
) -> Result<u32, KeepError>
    ensures wrote { AddsPledge (state S.Store tx.old.conn.now) (state S.Store tx.new.conn.now) result book (number_in_book pledge.now) pledge.now }
    ensures lent { Lends S.Store tx.old.conn tx.new.conn (is_ok result) }
{
    put_whole(tx, book, pledge.agreement().number.get(), pledge)
}

/// Inserts all rows of the pledges of a book that has none stored. Returns how many of them are counted.
fn put_pledges<S: Alter>(
    tx: &mut Transaction<'_, S>,
    book: u32,
    pledges: &[Pledge],
) -> Result<u32, KeepError>
    ensures wrote { AddsPledges (state S.Store tx.old.conn.now) (state S.Store tx.new.conn.now) result book pledges.now }
    ensures carried { Carries S.Store tx.old.conn tx.new.conn (is_ok result) }
{
    let mut counted = 0;
    for pledge in pledges {
        let added = put_pledge(tx, book, pledge)?;
        counted = sum_in_32_bits(counted, added)?;
    }
    Ok(counted)
}

/// Fills a book that has neither terms nor pledges, and notes the import's key. Returns how many counted rows that
/// adds.
#[tactic(auto, using(crate::proofs::Basics::lent_then, crate::proofs::RowsInOrder::lent_carried, crate::proofs::RowsInOrder::both_carried))]
pub(crate) fn import_book<S: Alter>(
    tx: &mut Transaction<'_, S>,
    book: Number,
    key: Secret,
    rows: &ReplayableRows,
) -> Result<u32, KeepError>
    ensures wrote { WritesRows (state S.Store tx.old.conn.now) (state S.Store tx.new.conn.now) (ImportBook book key rows.now) result }
    ensures lent { Lends S.Store tx.old.conn tx.new.conn (is_ok result) }
{
    let terms = rows.terms();
    let pledges = rows.pledges();
    let versions = length_in_32_bits(terms.len())?;
    let so_many = length_in_32_bits(pledges.len())?;
    set_import(tx, book.get(), key, versions, so_many)?;
    put_versions(tx, book.get(), terms)?;
    let added = put_pledges(tx, book.get(), pledges)?;
    sum_in_32_bits(versions, added)
}
