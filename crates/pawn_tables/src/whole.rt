//! Reads a whole pledge from all its tables.
#![tactic(auto, using(crate::proofs::Basics::lent_then))]

ghost use Rattle.pawn_tables.specs.Common.{get, pledge_in, terms_of, terms_at, IsReachable, IsUnsoundAt, Lends};
ghost use Rattle.pawn_tables.specs.Finding.{FindsBy};
ghost use Rattle.pawn_tables.specs.PledgeRows.{AreLists, AreRelated, IsPledgeRow};
ghost use Rattle.std.specs.Prelude.{◌≡◌, IfOk, IfSome, is_ok};

use crate::cells::NO_RECORD;
use crate::joining::pledges::join_pledge;
use crate::joining::{PledgeLists, RelatedRows, StoredPledge};
use crate::queries::{
    booking_in, entries_in, extensions_in, row_in, secrets_in, terms_in, totals_in,
};
use pawn_book::{KeepError, Number, Pledge, Terms};
use sqlite::{Alter, Transaction};
use std::alloc::Global;

/// The terms that a book has under a version, if it has any. Versions are counted from 1; there are none under 0, nor
/// under a version that does not fit in 32 bits. The error is `NoRecord` only if the book is not sound.
pub fn terms_under<S: Alter>(
    tx: &mut Transaction<'_, S>,
    book: u32,
    version: u64,
) -> Result<Option<Terms>, KeepError>
    ensures finds { FindsBy S.Store tx.old.conn tx.new.conn (IsUnsoundAt book) result (λ h terms. terms ≡ terms_at (terms_of (get h.books book)) version) }
    ensures lent { Lends S.Store tx.old.conn tx.new.conn (is_ok result) }
{
    let Ok(short) = u32::try_from(version) else {
        return terms_in(tx, book, 0);
    };
    terms_in(tx, book, short)
}

/// The entries, secrets and extensions of a pledge.
pub(crate) fn lists_in<S: Alter>(
    tx: &mut Transaction<'_, S>,
    alloc: Global,
    book: u32,
    number: u32,
) -> Result<PledgeLists, KeepError>
    ensures finds { FindsBy S.Store tx.old.conn tx.new.conn (IsUnsoundAt book) result (λ h l. IfSome (pledge_in (get h.books book) number) (AreLists l)) }
    ensures lent { Lends S.Store tx.old.conn tx.new.conn (is_ok result) }
{
    let entries = entries_in(tx, alloc, book, number)?;
    let secrets = secrets_in(tx, alloc, book, number)?;
    let extensions = extensions_in(tx, alloc, book, number)?;
    Ok(PledgeLists {
        entries,
        secrets,
        extensions,
    })
}

/// The terms, the booking and the totals of a pledge.
pub(crate) fn related_in<S: Alter>(
    tx: &mut Transaction<'_, S>,
    book: u32,
    number: u32,
    version: u32,
) -> Result<RelatedRows, KeepError>
    ensures finds { FindsBy S.Store tx.old.conn tx.new.conn (IsUnsoundAt book) result
        (λ h s. IfSome (pledge_in (get h.books book) number) (λ p. version ≡ p.agreement.version → AreRelated s p)) }
    ensures lent { Lends S.Store tx.old.conn tx.new.conn (is_ok result) }
{
    let terms = terms_in(tx, book, version)?;
    let booking = booking_in(tx, book, number)?;
    let totals = totals_in(tx, book, number)?;
    Ok(RelatedRows {
        terms,
        booking,
        totals,
    })
}

/// The row of a pledge with its terms, its booking and its totals, if there is such a pledge.
pub(crate) fn stored_pledge_in<S: Alter>(
    tx: &mut Transaction<'_, S>,
    alloc: Global,
    book: u32,
    number: u32,
) -> Result<Option<StoredPledge>, KeepError>
    ensures finds { FindsBy S.Store tx.old.conn tx.new.conn (IsUnsoundAt book) result (λ h t. IsPledgeRow t (pledge_in (get h.books book) number)) }
    ensures lent { Lends S.Store tx.old.conn tx.new.conn (is_ok result) }
{
    let Some(row) = row_in(tx, alloc, book, number)? else {
        return Ok(None);
    };
    let Ok(version) = u32::try_from(row.version) else {
        return Err(NO_RECORD);
    };
    let related = related_in(tx, book, number, version)?;
    Ok(Some(StoredPledge { row, related }))
}

/// The pledge with this number in a book, if there is one. The stored totals and the stored end of the period are
/// compared with those that follow from the record; the error is `NoRecord` if they differ. `NoRecord` is answered only
/// if the book is not sound. Commands can produce each pledge that is returned.
pub fn pledge_of<S: Alter>(
    tx: &mut Transaction<'_, S>,
    alloc: Global,
    book: u32,
    number: Number,
) -> Result<Option<Pledge>, KeepError>
    ensures finds { FindsBy S.Store tx.old.conn tx.new.conn (IsUnsoundAt book) result (λ h pledge. pledge ≡ pledge_in (get h.books book) number) }
    ensures reachable { IfOk result (λ pledge. IfSome pledge IsReachable) }
    ensures lent { Lends S.Store tx.old.conn tx.new.conn (is_ok result) }
{
    let n = number.get();
    let Some(stored) = stored_pledge_in(tx, alloc, book, n)? else {
        return Ok(None);
    };
    let lists = lists_in(tx, alloc, book, n)?;
    let pledge = join_pledge(number, stored.row, stored.related, lists)?;
    Ok(Some(pledge))
}
