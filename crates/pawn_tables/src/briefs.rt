//! The brief of a stored pledge, read without its lists.
ghost use Rattle.pawn_tables.specs.Common.{get, pledge_in, HasTermsOf, IsUnsoundAt, Lends};
ghost use Rattle.pawn_tables.specs.Finding.{FindsBy};
ghost use Rattle.pawn_tables.specs.ListEnds.{stored_brief};
ghost use Rattle.pawn_tables.specs.PledgeRows.{booking_of, totals_in};
ghost use Rattle.std.specs.Prelude.{◌≡◌, IfSome, Some, is_ok, option_map};

use crate::joining::RelatedRows;
use crate::joining::briefs::join_brief;
use crate::list_ends::list_ends_in;
use crate::queries::{booking_in, row_in, totals_in};
use crate::whole::stored_pledge_in;
use pawn_book::{Brief, KeepError, Number, Terms};
use sqlite::{Alter, Transaction};
use std::alloc::Global;

/// The brief of the pledge with this number in a book, if there is one. The lists are not read: the totals and the end
/// of the period are the stored ones, and the number of the last entry is taken for how many entries there are, as it
/// is in a sound book. The error is `NoRecord` only if the book is not sound.
#[tactic(auto, using(crate::proofs::Basics::lent_then))]
pub fn brief_in<S: Alter>(
    tx: &mut Transaction<'_, S>,
    alloc: Global,
    book: u32,
    number: Number,
) -> Result<Option<Brief>, KeepError>
    ensures finds { FindsBy S.Store tx.old.conn tx.new.conn (IsUnsoundAt book) result
        (λ h brief. brief ≡ option_map stored_brief (pledge_in (get h.books book) number)) }
    ensures lent { Lends S.Store tx.old.conn tx.new.conn (is_ok result) }
{
    let n = number.get();
    let Some(stored) = stored_pledge_in(tx, alloc, book, n)? else {
        return Ok(None);
    };
    let list_ends = list_ends_in(tx, book, n)?;
    let brief = join_brief(number, stored.row, stored.related, list_ends)?;
    Ok(Some(brief))
}

/// The terms in a brief, if they have this version.
fn terms_known(known: &Brief, version: u64) -> Option<Terms>
    ensures value { IfSome result (λ terms. (terms ≡ known.now.agreement.terms) × (version ≡ known.now.agreement.version)) }
{
    let agreement = &known.fields().agreement;
    if agreement.version != version {
        return None;
    }
    agreement.terms.check().ok()
}

/// The booking and the totals of a pledge, beside terms that are known.
#[tactic(auto, using(crate::proofs::Basics::lent_then))]
fn related_under<S: Alter>(
    tx: &mut Transaction<'_, S>,
    book: u32,
    number: u32,
    terms: Terms,
) -> Result<RelatedRows, KeepError>
    ensures finds { FindsBy S.Store tx.old.conn tx.new.conn (IsUnsoundAt book) result (λ h s. (s.terms ≡ Some terms)
        × (s.booking ≡ booking_of (pledge_in (get h.books book) number)) × (s.totals ≡ totals_in (pledge_in (get h.books book) number))) }
    ensures lent { Lends S.Store tx.old.conn tx.new.conn (is_ok result) }
{
    let booking = booking_in(tx, book, number)?;
    let totals = totals_in(tx, book, number)?;
    Ok(RelatedRows {
        terms: Some(terms),
        booking,
        totals,
    })
}

/// The same as `brief_in`, where `known` is the brief of another pledge of this book: the terms are not read if both
/// pledges are under the same version. The terms in `known` have to be those that the book has under that version.
#[tactic(auto, using(crate::proofs::Basics::lent_then))]
pub fn further_brief_in<S: Alter>(
    tx: &mut Transaction<'_, S>,
    alloc: Global,
    book: u32,
    number: Number,
    known: &Brief,
) -> Result<Option<Brief>, KeepError>
    ensures finds { FindsBy S.Store tx.old.conn tx.new.conn (λ h. HasTermsOf (get h.books book) known.now → IsUnsoundAt book h) result
        (λ h brief. HasTermsOf (get h.books book) known.now → brief ≡ option_map stored_brief (pledge_in (get h.books book) number)) }
    ensures lent { Lends S.Store tx.old.conn tx.new.conn (is_ok result) }
{
    let n = number.get();
    let Some(row) = row_in(tx, alloc, book, n)? else {
        return Ok(None);
    };
    let Some(terms) = terms_known(known, row.version) else {
        return brief_in(tx, alloc, book, number);
    };
    let related = related_under(tx, book, n, terms)?;
    let list_ends = list_ends_in(tx, book, n)?;
    let brief = join_brief(number, row, related, list_ends)?;
    Ok(Some(brief))
}
