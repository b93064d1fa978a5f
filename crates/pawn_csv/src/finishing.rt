//! Turns the rows that were read into a book, at the end of a text.
ghost use Rattle.pawn_csv.specs.Common.{AreReplayable, BookRows, Closing, PledgeValue, terms_at};
ghost use Rattle.pawn_csv.specs.Finishing.{AreRawOf, Ends, IsBegunOf, IsClosingOf, IsRawOf, IsRefusedAs};
ghost use Rattle.pawn_csv.specs.Order.{begun_of, hand, view_begun};
ghost use Rattle.std.specs.Prelude.{◌≡◌, ◌++◌, IfErr, IfNone, IfOk, IfSome, Some};

use crate::fault::Cause;
use crate::order::{BegunBook, RawBook, RawPledge};
use crate::row::{ClosingWord, PledgeColumns};
use pawn_book::{
    Agreement, BookRows, Closing, Number, Parts, PledgeRows, Rates, ReplayableRows, Standing,
};
use std::alloc::{AllocError, Global};

/// Returns the terms of a version. Versions are numbered from 1.
fn find_terms(terms: &[Rates], version: u64) -> Option<Rates>
    ensures value { result ≡ terms_at terms.now version }
{
    if version == 0 || version > terms.len() as u64 {
        return None;
    }
    Some(terms[version as usize - 1])
}

/// Returns the closing in a pledge's columns, if its word, day and amount agree with each other.
fn closing_of(columns: &PledgeColumns) -> Option<Closing>
    ensures found { IfSome result (IsClosingOf columns.now) }
    ensures none { IfNone result ((closing : Closing) → IsClosingOf columns.now closing → ⊥) }
{
    match columns.closing {
        ClosingWord::Open => match columns.closing_day {
            Some(_) => None,
            None => match columns.amount {
                Some(_) => None,
                None => Some(Closing::Open),
            },
        },
        ClosingWord::Redeemed => match columns.closing_day {
            None => None,
            Some(day) => match columns.amount {
                None => None,
                Some(paid) => Some(Closing::Redeemed { day, paid }),
            },
        },
        ClosingWord::Sold => match columns.closing_day {
            None => None,
            Some(day) => match columns.amount {
                None => None,
                Some(net) => Some(Closing::Sold { day, net }),
            },
        },
    }
}

/// Returns the parts of a pledge whose rows have all been read, if its columns agree with each other and the book has
/// its version of terms.
fn parts_of_rows(raw: RawPledge, terms: &[Rates]) -> Option<Parts>
    ensures found { IfSome result (IsRawOf terms.now raw) }
    ensures none { IfNone result ((p : PledgeValue) → IsRawOf terms.now raw p → ⊥) }
{
    let (Some(number), Some(rates), Some(closing)) = (
        Number::new(raw.columns.number),
        find_terms(terms, raw.columns.version),
        closing_of(&raw.columns),
    ) else {
        return None;
    };
    let RawPledge {
        columns,
        secrets,
        entries,
        extensions,
        booking,
    } = raw;
    let standing = Standing {
        held: columns.held,
        booking,
        last: columns.last,
        closing,
    };
    let agreement = Agreement {
        number,
        taken: columns.taken,
        version: columns.version,
        terms: rates,
        opening: columns.opening,
    };
    Some(Parts {
        agreement,
        entries,
        secrets,
        extensions,
        standing,
    })
}

/// Returns the parts of all pledges, if the columns of each agree with each other.
fn all_parts(
    alloc: Global,
    raws: Vec<RawPledge>,
    terms: &[Rates],
) -> Result<Option<Vec<Parts>>, AllocError>
    ensures found { IfOk result (λ all. IfSome all (λ parts. AreRawOf terms.now raws.items parts.items)) }
    ensures none { IfOk result (λ all. IfNone all ((pledges : _) → AreRawOf terms.now raws.items pledges → ⊥)) }
{
    let mut all = Vec::new(alloc);
    for raw in raws {
        let Some(parts) = parts_of_rows(raw, terms) else {
            return Ok(None);
        };
        all.push(parts)?;
    }
    Ok(Some(all))
}

/// Returns the complete pledges, followed by the one at hand.
fn with_hand(
    pledges: Vec<RawPledge>,
    at_hand: Option<RawPledge>,
) -> Result<Vec<RawPledge>, AllocError>
    ensures value { IfOk result (λ raws. raws.items ≡ pledges.items ++ hand at_hand) }
{
    let mut raws = pledges;
    match at_hand {
        None => Ok(raws),
        Some(raw) => {
            raws.push(raw)?;
            Ok(raws)
        }
    }
}

impl BegunBook {
    /// Returns the book's rows, if the columns of each pledge agree with each other.
    fn into_rows(self, alloc: Global) -> Result<Option<BookRows>, AllocError>
        ensures found { IfOk result (λ rows. IfSome rows (IsBegunOf (view_begun self))) }
        ensures none { IfOk result (λ rows. IfNone rows ((k : BookRows) → IsBegunOf (view_begun self) k → ⊥)) }
    {
        let BegunBook {
            terms,
            pledges,
            at_hand,
            ..
        } = self;
        let raws = with_hand(pledges, at_hand)?;
        match all_parts(alloc, raws, terms.as_slice())? {
            None => Ok(None),
            Some(all) => Ok(Some(BookRows {
                terms,
                pledges: PledgeRows::from_vec(all),
            })),
        }
    }
}

/// Returns these rows if they are replayable. Fails with `NotReplayable` if they are not, or if `rows` is
/// `None`, and with `Memory` if memory runs out.
fn as_replayable(rows: Option<BookRows>) -> Result<ReplayableRows, Cause>
    ensures found { IfOk result (λ k. (rows ≡ Some k) × AreReplayable k.terms k.pledges) }
    ensures refused { IfErr result (IsRefusedAs rows) }
{
    let Some(rows) = rows else {
        return Err(Cause::NotReplayable);
    };
    let Ok(replayable) = ReplayableRows::of_rows(rows) else {
        return Err(Cause::Memory);
    };
    replayable.ok_or(Cause::NotReplayable)
}

impl BegunBook {
    /// Returns the book that the rows make. Fails with `Order` if rows are missing, with `NotReplayable` if the rows
    /// are not replayable, and with `Memory` if memory runs out.
    fn finish(self, alloc: Global) -> Result<ReplayableRows, Cause>
        ensures value { Ends (Some (view_begun self)) result }
    {
        if !self.is_whole() {
            return Err(Cause::Order);
        }
        match self.into_rows(alloc) {
            Err(_) => Err(Cause::Memory),
            Ok(rows) => as_replayable(rows),
        }
    }
}

impl RawBook {
    /// Returns the book that the rows make. Fails with `Order` if rows are missing, with `NotReplayable` if the rows
    /// are not replayable, and with `Memory` if memory runs out.
    pub(crate) fn finish(self, alloc: Global) -> Result<ReplayableRows, Cause>
        ensures value { Ends (begun_of self) result }
    {
        match self.begun {
            None => Err(Cause::Order),
            Some(begun) => begun.finish(alloc),
        }
    }
}
