//! The status of a pledge on a day.

ghost use Rattle.pawn_pledge.specs.Pledge.{is_small, status_by, status_under};
ghost use Rattle.pawn_terms.specs.Limits.{last_request_day};
ghost use Rattle.std.specs.Prelude.{◌≡◌, ◌≤◌};

use crate::limits::{GRACE_DAYS, SMALL_CREDIT};
use crate::record::{Agreement, Closing, Status};
use pawn_debt::Day;

/// Whether a credit in pence is small.
pub(crate) fn is_small(credit: u64) -> bool
    ensures value { result ≡ is_small credit }
{
    credit <= SMALL_CREDIT
}

/// The status on a day of a pledge with this agreement, as if it were not closed. `ends` is the end of its period.
pub(crate) fn status_by(agreement: &Agreement, ends: Day, day: Day) -> Status
    requires taken { agreement.now.taken ≤ last_request_day }
    ensures value { result ≡ status_by agreement.now ends day }
{
    let six = ends == agreement.taken.six_months_after();
    if day.count() <= ends.count() {
        Status::Inside
    } else if agreement.opening.five_days && day.count() <= ends.count() + GRACE_DAYS {
        Status::Grace
    } else if six && is_small(agreement.opening.kind.credit()) {
        Status::Passed
    } else {
        Status::Realisable
    }
}

/// The status on a day of a pledge with this agreement and this closing.
pub(crate) fn status_under(agreement: &Agreement, closing: Closing, ends: Day, day: Day) -> Status
    requires taken { agreement.now.taken ≤ last_request_day }
    ensures value { result ≡ status_under closing (status_by agreement.now ends day) }
{
    match closing {
        Closing::Open => status_by(agreement, ends, day),
        Closing::Redeemed { .. } => Status::Redeemed,
        Closing::Sold { .. } => Status::Sold,
    }
}
