//! Entries of a debt, checked by applying the rules to each of them in turn.

ghost use Rattle.pawn_debt.specs.Due.{credit_of, due};
ghost use Rattle.pawn_debt.specs.Kept.{IsDebtKept, sums_of};
ghost use Rattle.pawn_debt.specs.Limits.{most_a_day, most_pence};
ghost use Rattle.pawn_debt.specs.Owing.{owing_of};
ghost use Rattle.pawn_debt.specs.Replay.{AreEntriesAccepted, IsEntryAccepted};
ghost use Rattle.pawn_terms.specs.Calendar.{IsDayNumber};
ghost use Rattle.std.specs.Prelude.{◌≡◌, ◌-◌, ◌*◌, ◌≤◌, [], ◌∷◌, ◌++◌, IfSome, IfNone};

use crate::entry::{Entry, Kind, Sort};
use crate::limits::{MOST_ENTRIES, MOST_PENCE};
use crate::owing::{Owing, Totals, after_days, after_draw, after_repay, owing_after};
use pawn_terms::{Day, Terms};

/// The totals on a day that is not before that of `totals`, the totals after the entries `prior`.
fn owed_at(
    kind: Kind,
    terms: Terms,
    taken: Day,
    ends: Day,
    prior: &[Entry],
    totals: &Totals,
    day: Day,
) -> Totals
    requires kept { IsDebtKept (record { kind = kind; terms = terms; taken = taken; ends = ends; entries = prior.now }) totals.now }
    requires later { totals.now.day ≤ day }
    ensures day { result.day ≡ day }
    ensures owed { sums_of result ≡ due (record { kind = kind; terms = terms; taken = taken; ends = ends; entries = prior.now }) day }
    ensures principal_in { result.principal ≤ most_pence }
    ensures millionths_in { result.millionths ≤ (day - taken) * most_a_day }
    ensures in_range { IsDayNumber day }
    ensures later { totals.now.day ≤ day }
{
    after_days(totals, terms, ends, day)
}

/// The totals after one more entry, or `None` if the rules do not accept it.
fn accept(
    kind: Kind,
    terms: Terms,
    taken: Day,
    ends: Day,
    prior: &[Entry],
    totals: &Totals,
    e: &Entry,
) -> Option<Totals>
    requires kept { IsDebtKept (record { kind = kind; terms = terms; taken = taken; ends = ends; entries = prior.now }) totals.now }
    ensures accepted { IfSome result (λ t. IsEntryAccepted (record { kind = kind; terms = terms; taken = taken; ends = ends; entries = prior.now }) e.now) }
    ensures kept { IfSome result (λ t. IsDebtKept (record { kind = kind; terms = terms; taken = taken; ends = ends; entries = prior.now ++ e.now ∷ [] }) t) }
    ensures refused { IfNone result (IsEntryAccepted (record { kind = kind; terms = terms; taken = taken; ends = ends; entries = prior.now }) e.now → ⊥) }
{
    if e.seq != prior.len() as u64 + 1 {
        return None;
    }
    if e.day < totals.day {
        return None;
    }
    if e.pence == 0 || e.pence > MOST_PENCE {
        return None;
    }
    if prior.len() >= MOST_ENTRIES {
        return None;
    }
    let owed = owed_at(kind, terms, taken, ends, prior, totals, e.day);
    match e.sort {
        Sort::Draw => {
            let Kind::Running(limit) = kind else {
                return None;
            };
            if owed.principal + e.pence > limit {
                return None;
            }
            Some(after_draw(owed, e.pence))
        }
        Sort::Repay => {
            if e.pence > owing_after(&owed).total {
                return None;
            }
            Some(after_repay(owed, e.pence))
        }
    }
}

/// Gives a proof that a day number is in range.
fn know_day(day: Day)
    ensures in_range { IsDayNumber day }
{
    let _ = day.count();
}

/// The totals of a debt without entries, on the day taken.
pub(crate) fn first_totals(kind: Kind, terms: Terms, taken: Day, ends: Day) -> Totals
    requires within { credit_of kind ≤ most_pence }
    ensures kept { IsDebtKept (record { kind = kind; terms = terms; taken = taken; ends = ends; entries = [] }) result }
{
    know_day(taken);
    Totals {
        day: taken,
        principal: kind.first_principal(),
        millionths: 0,
    }
}

/// The totals after the entries, or `None` if the rules do not accept each of them in turn. The sum or limit of `kind`
/// must not be above `MOST_PENCE`.
pub fn replay_entries(
    kind: Kind,
    terms: Terms,
    taken: Day,
    ends: Day,
    entries: &[Entry],
) -> Option<Totals>
    requires within { credit_of kind ≤ most_pence }
    ensures kept { IfSome result (λ t. IsDebtKept (record { kind = kind; terms = terms; taken = taken; ends = ends; entries = entries.now }) t) }
    ensures accepted { IfSome result
        (λ t. AreEntriesAccepted (record { kind = kind; terms = terms; taken = taken; ends = ends; entries = entries.now }) [] entries.now) }
    ensures refused { IfNone result
        (AreEntriesAccepted (record { kind = kind; terms = terms; taken = taken; ends = ends; entries = entries.now }) [] entries.now → ⊥) }
{
    let mut totals = first_totals(kind, terms, taken, ends);
    for i in 0..entries.len() {
        let Some(next) = accept(
            kind,
            terms,
            taken,
            ends,
            &entries[..i],
            &totals,
            &entries[i],
        ) else {
            return None;
        };
        totals = next;
    }
    Some(totals)
}

/// The sum owed in whole pence on a day. `totals` are the totals after the entries, and the day must not be before
/// theirs.
pub fn owing_at(
    kind: Kind,
    terms: Terms,
    taken: Day,
    ends: Day,
    entries: &[Entry],
    totals: &Totals,
    day: Day,
) -> Owing
    requires kept { IsDebtKept (record { kind = kind; terms = terms; taken = taken; ends = ends; entries = entries.now }) totals.now }
    requires later { totals.now.day ≤ day }
    ensures value { result ≡ owing_of (due (record { kind = kind; terms = terms; taken = taken; ends = ends; entries = entries.now }) day) }
{
    owing_after(&owed_at(kind, terms, taken, ends, entries, totals, day))
}
