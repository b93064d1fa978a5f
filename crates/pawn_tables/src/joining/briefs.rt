//! Joins what was read of a pledge into its brief.
ghost use Rattle.pawn_tables.specs.Common.{IsDayNumber, PledgeValue, end_of, last_secret, Issued};
ghost use Rattle.pawn_tables.specs.Finding.{IsRead};
ghost use Rattle.pawn_tables.specs.ListEnds.{AreListEnds, last_issued, stored_brief};
ghost use Rattle.pawn_tables.specs.PledgeRows.{AreRelated, HasSecret, IsBriefDecodable, row_of};
ghost use Rattle.std.specs.Prelude.{◌≡◌, List, length};

use super::pledges::{ends_of, joined_rows, record_of};
use crate::cells::{NO_RECORD, day_of};
use crate::joining::{LastSecret, ListEnds, RelatedRows};
use crate::records::PledgeRow;
use pawn_book::{Brief, BriefFields, KeepError, Number, Secret};
use pawn_pledge::Counts;

/// The secret itself, without its place and how it was issued.
fn secret_of(last: Option<LastSecret>) -> Option<Secret>
    ensures value { (secrets : List Issued) → last ≡ last_issued secrets → result ≡ last_secret secrets }
{
    match last {
        Some(last) => Some(last.issued.secret),
        None => None,
    }
}

/// How many secrets there are: the place of the last one, or 0.
fn secret_count(last: Option<LastSecret>) -> u64
    ensures value { (secrets : List Issued) → last ≡ last_issued secrets → result ≡ length secrets }
{
    match last {
        Some(last) => last.place,
        None => 0,
    }
}

/// How many secrets and extensions there are, and as many entries as the last entry's number says.
fn counts_of(list_ends: ListEnds) -> Counts
    ensures value { (p : PledgeValue) → AreListEnds list_ends p → result ≡ (stored_brief p).counts }
{
    Counts {
        entries: list_ends.last_entry as usize,
        secrets: secret_count(list_ends.last) as usize,
        extensions: list_ends.extensions as usize,
    }
}

/// The fields of the brief, from what was read of a pledge. `NoRecord` if its terms, its totals or its last secret is
/// missing, or if the end of its period is no day.
fn fields_of(
    number: Number,
    row: PledgeRow,
    related: RelatedRows,
    list_ends: ListEnds,
) -> Result<BriefFields, KeepError>
    ensures read { (p : PledgeValue) → number ≡ p.agreement.number → row ≡ row_of p
        → AreRelated related p → AreListEnds list_ends p → IsRead result (stored_brief p) (HasSecret p × IsDayNumber (end_of p)) }
{
    let Some((terms, booking, totals)) = joined_rows(related) else {
        return Err(NO_RECORD);
    };
    if list_ends.last.is_none() {
        return Err(NO_RECORD);
    }
    let ends = day_of(ends_of(&row))?;
    let (agreement, standing) = record_of(number, row, terms, booking);
    let live = standing.closing.live_secret(secret_of(list_ends.last));
    Ok(BriefFields {
        agreement,
        counts: counts_of(list_ends),
        standing,
        live,
        ends,
        totals,
    })
}

/// The brief, from what was read of a pledge. `NoRecord` if a part is missing or the brief is not within its limits.
pub(crate) fn join_brief(
    number: Number,
    row: PledgeRow,
    related: RelatedRows,
    list_ends: ListEnds,
) -> Result<Brief, KeepError>
    ensures read { (p : PledgeValue) → number ≡ p.agreement.number → row ≡ row_of p
        → AreRelated related p → AreListEnds list_ends p → IsRead result (stored_brief p) (IsBriefDecodable p) }
{
    let fields = fields_of(number, row, related, list_ends)?;
    match Brief::of_fields(fields) {
        Ok(brief) => Ok(brief),
        Err(_) => Err(NO_RECORD),
    }
}
