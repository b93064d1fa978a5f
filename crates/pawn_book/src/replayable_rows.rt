//! `ReplayableRows`, rows that can fill a book.
ghost use Rattle.pawn_base.specs.Lists.{Each};
ghost use Rattle.pawn_book.specs.Rows.{AreReplayable};
ghost use Rattle.pawn_book.specs.TextsAndWords.{HasTextsAndWords};
ghost use Rattle.std.specs.Prelude.{◌≡◌, IfNone, IfOk, IfSome};

use crate::book_rows::BookRows;
use crate::replaying::fit_together;
use pawn_pledge::{Pledge, Rates, Rows};
use std::alloc::AllocError;
use std::marker::Model;

/// Rows that can fill a book, with their pledges. They were checked when this value was made, so neither a plan nor a
/// save checks them again. In contracts the value is the rows.
#[derive(Drop)]
pub struct ReplayableRows {
    terms: Rows<Rates>,
    pledges: Vec<Pledge>,
}

impl Model for ReplayableRows {
    ghost use Rattle.pawn_base.specs.Lists.{Each};
    ghost use Rattle.pawn_book.specs.Rows.{AreReplayable};
    ghost use Rattle.pawn_book.specs.TextsAndWords.{HasTextsAndWords};
    ghost use Rattle.pawn_book.specs.declared.book_rows.BookRows.{BookRows};

    ghost Value = { BookRows };

    ghost view = { λ r. record { terms = r.terms; pledges = r.pledges.items } };

    ghost invariant = { λ r. AreReplayable r.terms r.pledges.items × Each HasTextsAndWords r.pledges.items };
}

impl ReplayableRows {
    /// The rows with their pledges, or `None` if they are not replayable. Fails only if memory runs out.
    pub fn of_rows(rows: BookRows) -> Result<Option<ReplayableRows>, AllocError>
        ensures found { IfOk result (λ found. IfSome found (λ replayable. (replayable ≡ rows) × AreReplayable rows.terms rows.pledges)) }
        ensures none { IfOk result (λ found. IfNone found (AreReplayable rows.terms rows.pledges → ⊥)) }
    {
        if !fit_together(rows.terms.as_slice(), rows.pledges.as_slice()) {
            return Ok(None);
        }
        let BookRows { terms, pledges } = rows;
        match pledges.into_pledges()? {
            Some(pledges) => Ok(Some(ReplayableRows { terms, pledges })),
            None => Ok(None),
        }
    }

    /// The three numbers of each version of the terms, version 1 first.
    pub fn terms(&self) -> &[Rates]
        ensures value { result.now ≡ self.now.terms }
    {
        self.terms.as_slice()
    }

    /// The pledges, in order.
    pub fn pledges(&self) -> &[Pledge]
        ensures value { result.now ≡ self.now.pledges }
    {
        self.pledges.as_slice()
    }

    /// Proves that the rows are replayable, and that their texts and words are within their ranges. The body only reads
    /// a field, which makes the invariant known.
    pub fn know_replayable(&self)
        ensures replayable { AreReplayable self.now.terms self.now.pledges }
        ensures texts_and_words { Each HasTextsAndWords self.now.pledges }
    {
        let _ = &self.terms;
    }

    /// A copy of the rows. Fails only if memory runs out.
    pub fn copy(&self) -> Result<ReplayableRows, AllocError>
        ensures same { IfOk result (λ rows. rows ≡ self.now) }
    {
        let terms = self.terms.copy()?;
        let pledges = copies_of(&self.pledges)?;
        Ok(ReplayableRows { terms, pledges })
    }
}

/// A copy of each pledge. Fails only if memory runs out.
fn copies_of(pledges: &Vec<Pledge>) -> Result<Vec<Pledge>, AllocError>
    ensures same { IfOk result (λ copies. copies.items ≡ pledges.now.items) }
{
    let mut copies = Vec::new(*pledges.allocator());
    for pledge in pledges {
        let copy = pledge.copy()?;
        copies.push(copy)?;
    }
    Ok(copies)
}
