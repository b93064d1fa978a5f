//! Reads how much of a pledge is stored before the pledge is written.
ghost use Rattle.pawn_saving.specs.Stored.{AreLengths, IsLengthWithin, IsStored, ReadsIn, length_in};
ghost use Rattle.pawn_saving.specs.RowWrites.{Carries};
ghost use Rattle.pawn_tables.specs.Common.{get, state, pledge_in, Lends};
ghost use Rattle.std.specs.Prelude.{◌≡◌, ◌≤◌, ◌↔◌, IsTrue, is_ok};

use crate::lengths::Lengths;
use pawn_book::KeepError;
use pawn_tables::{booking_in, entry_in, extension_in, secret_in};
use sqlite::{Alter, Transaction};

/// One of the lists of a pledge. Such a list only grows, at its end.
#[derive(Clone, Copy)]
pub(crate) enum PledgeList {
    Entries,
    Secrets,
    Extensions,
}

/// How much of a pledge is stored: how long its lists are, and whether it has a booking. A stored pledge of a sound
/// book has at least one secret, so a pledge without secrets is not stored.
#[derive(Clone, Copy)]
pub(crate) struct Stored {
    pub(crate) lengths: Lengths,
    pub(crate) is_booked: bool,
}

/// Whether an element is stored at a place of a pledge's list. The first place is 1.
fn is_stored_at<S: Alter>(
    tx: &mut Transaction<'_, S>,
    list: PledgeList,
    book: u32,
    number: u32,
    place: u32,
) -> Result<bool, KeepError>
    ensures reads { ReadsIn (state S.Store tx.old.conn.now) (state S.Store tx.new.conn.now) result
        (λ h stored. 1 ≤ place → (IsTrue stored ↔ place ≤ length_in list (pledge_in (get h.books book) number))) }
    ensures lent { Lends S.Store tx.old.conn tx.new.conn (is_ok result) }
{
    match list {
        PledgeList::Entries => Ok(entry_in(tx, book, number, place)?.is_some()),
        PledgeList::Secrets => Ok(secret_in(tx, book, number, place)?.is_some()),
        PledgeList::Extensions => Ok(extension_in(tx, book, number, place)?.is_some()),
    }
}

/// The length of the stored list of a pledge, if it is at most `most`. The search asks for the element at place `most`,
/// then for the one before it, and so on; after a command it ends after a few steps.
fn length_within<S: Alter>(
    tx: &mut Transaction<'_, S>,
    list: PledgeList,
    book: u32,
    number: u32,
    most: u32,
) -> Result<u32, KeepError>
    ensures reads { ReadsIn (state S.Store tx.old.conn.now) (state S.Store tx.new.conn.now) result
        (λ h length. length_in list (pledge_in (get h.books book) number) ≤ most → length ≡ length_in list (pledge_in (get h.books book) number)) }
    ensures carried { Carries S.Store tx.old.conn tx.new.conn (is_ok result) }
{
    let mut length = most;
    while length > 0 {
        if is_stored_at(tx, list, book, number, length)? {
            return Ok(length);
        }
        length -= 1;
    }
    Ok(0)
}

/// The lengths of the stored lists of a pledge, if none exceeds that in `most`.
#[tactic(auto, using(crate::proofs::RowsInOrder::both_carried))]
fn lengths_within<S: Alter>(
    tx: &mut Transaction<'_, S>,
    book: u32,
    number: u32,
    most: Lengths,
) -> Result<Lengths, KeepError>
    ensures reads { ReadsIn (state S.Store tx.old.conn.now) (state S.Store tx.new.conn.now) result
        (λ h lengths. IsLengthWithin (pledge_in (get h.books book) number) most → AreLengths lengths (pledge_in (get h.books book) number)) }
    ensures carried { Carries S.Store tx.old.conn tx.new.conn (is_ok result) }
{
    let entries = length_within(tx, PledgeList::Entries, book, number, most.entries)?;
    let secrets = length_within(tx, PledgeList::Secrets, book, number, most.secrets)?;
    let extensions = length_within(tx, PledgeList::Extensions, book, number, most.extensions)?;
    Ok(Lengths {
        entries,
        secrets,
        extensions,
    })
}

/// How much of a pledge is stored, if none of its stored lists is longer than the length in `most`.
#[tactic(auto, using(crate::proofs::Basics::lent_then, crate::proofs::RowsInOrder::lent_carried))]
pub(crate) fn stored_within<S: Alter>(
    tx: &mut Transaction<'_, S>,
    book: u32,
    number: u32,
    most: Lengths,
) -> Result<Stored, KeepError>
    ensures reads { ReadsIn (state S.Store tx.old.conn.now) (state S.Store tx.new.conn.now) result
        (λ h stored. IsLengthWithin (pledge_in (get h.books book) number) most → IsStored stored (pledge_in (get h.books book) number)) }
    ensures lent { Lends S.Store tx.old.conn tx.new.conn (is_ok result) }
{
    let is_booked = booking_in(tx, book, number)?.is_some();
    let lengths = lengths_within(tx, book, number, most)?;
    Ok(Stored { lengths, is_booked })
}
