//! The rows of a book.
ghost use Rattle.pawn_base.specs.Lists.{Each};
ghost use Rattle.pawn_book.specs.TextsAndWords.{HasTextsAndWords};
ghost use Rattle.pawn_pledge.specs.Replayable.{IsReachable};
ghost use Rattle.std.specs.Prelude.{◌≡◌, IfNone, IfOk, IfSome};

use pawn_pledge::{Parts, Pledge, Rates, Rows};
use std::alloc::AllocError;
use std::marker::Model;

/// The records of a book's pledges, in order. They need not be records that pledges can have; `replayable` checks that.
/// In contracts the value is their list.
#[derive(Drop)]
pub struct PledgeRows {
    items: Vec<Parts>,
}

impl Model for PledgeRows {
    ghost use Rattle.pawn_base.specs.Lists.{Each};
    ghost use Rattle.pawn_book.specs.TextsAndWords.{HasTextsAndWords};
    ghost use Rattle.pawn_pledge.specs.Pledge.{PledgeValue};
    ghost use Rattle.std.specs.Prelude.{List};

    ghost Value = { List PledgeValue };

    ghost view = { λ rows. rows.items.items };

    ghost invariant = { λ rows. Each HasTextsAndWords rows.items.items };
}

impl PledgeRows {
    /// The records of a vector, in its order.
    pub fn from_vec(items: Vec<Parts>) -> PledgeRows
        ensures value { result ≡ items.items }
    {
        know_records(&items);
        PledgeRows { items }
    }

    /// The records as a slice.
    pub fn as_slice(&self) -> &[Parts]
        ensures value { result.now ≡ self.now }
        ensures texts_and_words { Each HasTextsAndWords self.now }
    {
        self.items.as_slice()
    }

    /// The pledges with these records, or `None` if no pledge can have one of the records. Fails only if memory runs out.
    pub(crate) fn into_pledges(self) -> Result<Option<Vec<Pledge>>, AllocError>
        ensures found { IfOk result (λ found. IfSome found (λ pledges. (pledges.items ≡ self) × Each IsReachable self)) }
        ensures none { IfOk result (λ found. IfNone found (Each IsReachable self → ⊥)) }
    {
        pledges_of(self.items)
    }
}

/// The pledges with these records, or `None` if no pledge can have one of the records. Fails only if memory runs out.
fn pledges_of(records: Vec<Parts>) -> Result<Option<Vec<Pledge>>, AllocError>
    ensures found { IfOk result (λ found. IfSome found (λ pledges. (pledges.items ≡ records.items) × Each IsReachable records.items)) }
    ensures none { IfOk result (λ found. IfNone found (Each IsReachable records.items → ⊥)) }
{
    let mut pledges = Vec::new(*records.allocator());
    for parts in records {
        let Ok(pledge) = Pledge::of_parts(parts) else {
            return Ok(None);
        };
        pledges.push(pledge)?;
    }
    Ok(Some(pledges))
}

/// Gives the proof of `know_texts_and_words` for each record.
fn know_records(records: &[Parts])
    ensures texts_and_words { Each HasTextsAndWords records.now }
{
    for parts in records {
        know_texts_and_words(parts);
    }
}

/// Reads the texts, the secrets and the day of a record, which gives a proof that the texts are UTF-8, that the secrets
/// have 128 bits, and that the day is in range.
fn know_texts_and_words(parts: &Parts)
    ensures texts_and_words { HasTextsAndWords parts.now }
{
    let _ = parts.agreement.opening.reference.as_str();
    let _ = parts.agreement.opening.article.as_str();
    let _ = parts.agreement.taken.count();
    for issued in parts.secrets.as_slice() {
        let _word = issued.secret.word();
    }
}

/// The rows of a book: the three numbers of each version of its terms, version 1 first, and its pledges. They need not
/// be rows that a book can have; `replayable` checks that.
#[derive(Drop)]
pub struct BookRows {
    pub terms: Rows<Rates>,
    pub pledges: PledgeRows,
}
