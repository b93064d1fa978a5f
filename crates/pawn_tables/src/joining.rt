//! Joins what was read from several tables into a pledge (`pledges`) or a brief (`briefs`).
use crate::records::PledgeRow;
use pawn_book::{Booking, Issued, Terms};
use pawn_debt::{Entries, Totals};
use pawn_pledge::{Extensions, Secrets};

pub(crate) mod briefs;
pub(crate) mod pledges;

/// The lists of a pledge.
#[derive(Drop)]
pub(crate) struct PledgeLists {
    pub entries: Entries,
    pub secrets: Secrets,
    pub extensions: Extensions,
}

/// The last secret of a pledge, and its place. The first place is 1.
#[derive(Clone, Copy)]
pub(crate) struct LastSecret {
    pub place: u64,
    pub issued: Issued,
}

/// The number of the last entry of a pledge or 0, its last secret, and how many extensions it has.
#[derive(Clone, Copy)]
pub(crate) struct ListEnds {
    pub last_entry: u64,
    pub last: Option<LastSecret>,
    pub extensions: u64,
}

/// What tables other than `pledges` store of a pledge in at most one row each.
#[derive(Clone, Copy)]
pub(crate) struct RelatedRows {
    pub terms: Option<Terms>,
    pub booking: Option<Booking>,
    pub totals: Option<Totals>,
}

/// The row of a pledge, and its single rows in other tables.
#[derive(Drop)]
pub(crate) struct StoredPledge {
    pub row: PledgeRow,
    pub related: RelatedRows,
}
