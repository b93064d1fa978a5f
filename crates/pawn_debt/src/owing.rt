//! The sum owed on a day: how it grows over days without entries, and how an entry changes it.

ghost use Rattle.pawn_debt.specs.Due.{after_days, after_sort};
ghost use Rattle.pawn_debt.specs.Kept.{sums_of};
ghost use Rattle.pawn_debt.specs.Limits.{most_a_day, most_millionths, most_pence};
ghost use Rattle.pawn_debt.specs.Owing.{owing_of, total_of};
ghost use Rattle.pawn_debt.specs.declared.entry.Sort.TheVariants.{Draw, Repay};
ghost use Rattle.pawn_terms.specs.Calendar.{IsDayNumber};
ghost use Rattle.std.specs.Prelude.{◌≡◌, ◌+◌, ◌-◌, ◌*◌, ◌≤◌};

use crate::limits::PENNY;
use pawn_terms::{Day, Terms};

/// The sum owed, in whole pence. Charges are rounded down, and the total is principal and charges together.
#[derive(Clone, Copy)]
pub struct Owing {
    pub principal: u64,
    pub charges: u64,
    pub total: u64,
}

/// The sum owed on a day, with the charges not rounded, so that they can be carried forward to later days.
#[derive(Clone, Copy, PartialEq, Eq)]
pub struct Totals {
    pub day: Day,
    /// The principal, in pence.
    pub principal: u64,
    /// The charges, in millionths of a penny.
    pub millionths: u64,
}

/// Carries totals forward to `day`, which must not be before their own day, when no entries come in between. `ends` is
/// the end of the period.
pub(crate) fn after_days(totals: &Totals, terms: Terms, ends: Day, day: Day) -> Totals
    requires later { totals.now.day ≤ day }
    requires principal_in { totals.now.principal ≤ most_pence }
    requires millionths_in { totals.now.millionths ≤ most_millionths }
    ensures day { result.day ≡ day }
    ensures owed { sums_of result ≡ after_days terms ends totals.now.day (day - totals.now.day) (sums_of totals.now) }
    ensures principal { result.principal ≡ totals.now.principal }
    ensures small { result.millionths ≤ totals.now.millionths + (day - totals.now.day) * most_a_day }
    ensures in_range { IsDayNumber result.day }
{
    let start = totals.day.count();
    let days = (day.count() - start) as u64;
    let inside = (day.count().min(ends.count()).saturating_sub(start)) as u64;
    let rates = terms.rates();
    let interest = days * (totals.principal * rates.rate);
    let keep = inside * rates.keep_before + (days - inside) * rates.keep_after;
    Totals {
        day,
        principal: totals.principal,
        millionths: totals.millionths + interest + keep,
    }
}

/// The sum owed on `day` in whole pence, carried forward from `totals`, when no entries come in between. `day` must not
/// be before the day of `totals`; `ends` is the end of the period.
pub fn owing_from(totals: &Totals, terms: &Terms, ends: Day, day: Day) -> Owing
    requires later { totals.now.day ≤ day }
    requires principal_in { totals.now.principal ≤ most_pence }
    requires millionths_in { totals.now.millionths ≤ most_millionths }
    ensures value { result ≡ owing_of (after_days terms.now ends totals.now.day (day - totals.now.day) (sums_of totals.now)) }
{
    owing_after(&after_days(totals, *terms, ends, day))
}

/// The sum owed in whole pence, from the totals of the same day.
pub(crate) fn owing_after(totals: &Totals) -> Owing
    requires within { totals.now.principal ≤ most_pence }
    ensures value { result ≡ owing_of (sums_of totals.now) }
{
    let charges = totals.millionths / PENNY;
    Owing {
        principal: totals.principal,
        charges,
        total: totals.principal + charges,
    }
}

/// The totals after a drawing on the same day. The new principal must not be above `MOST_PENCE`.
pub(crate) fn after_draw(owed: Totals, pence: u64) -> Totals
    requires within { owed.principal + pence ≤ most_pence }
    ensures day { result.day ≡ owed.day }
    ensures owed { sums_of result ≡ after_sort Draw pence (sums_of owed) }
    ensures principal_in { result.principal ≤ most_pence }
    ensures millionths_in { result.millionths ≤ owed.millionths }
{
    Totals {
        day: owed.day,
        principal: owed.principal + pence,
        millionths: owed.millionths,
    }
}

/// The totals after a repayment on the same day, which pays whole pence of charges first and then principal. The
/// repayment must not be above the sum owed.
pub(crate) fn after_repay(owed: Totals, pence: u64) -> Totals
    requires total { pence ≤ total_of (sums_of owed) }
    requires principal_in { owed.principal ≤ most_pence }
    ensures day { result.day ≡ owed.day }
    ensures owed { sums_of result ≡ after_sort Repay pence (sums_of owed) }
    ensures principal_in { result.principal ≤ most_pence }
    ensures millionths_in { result.millionths ≤ owed.millionths }
{
    let paid = pence.min(owed.millionths / PENNY);
    Totals {
        day: owed.day,
        principal: owed.principal - (pence - paid),
        millionths: owed.millionths - paid * PENNY,
    }
}
