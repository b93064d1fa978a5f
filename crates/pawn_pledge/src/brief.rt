//! `Brief`, a pledge without its lists of entries, secrets and extensions.

ghost use Rattle.pawn_pledge.specs.Brief.{brief_status, brief_owing, IsBookingWithin, IsClosingWithin, AreTotalsWithin};
ghost use Rattle.pawn_pledge.specs.Brief.{IsBriefWithin};
ghost use Rattle.pawn_pledge.specs.Common.{credit_of, last_request_day, most_entries, most_millionths, most_pence};
ghost use Rattle.pawn_pledge.specs.Limits.{most_secrets, most_extensions};
ghost use Rattle.std.specs.Prelude.{◌≡◌, ◌≤◌, ◌↔◌, IsTrue, OnErr, IfOk, IfErr, IfSome, IfNone};

use crate::limits::{LAST_WINDOW, MOST_EXTENSIONS, MOST_SECRETS};
use crate::record::{Agreement, Booking, Closing, Standing, Status};
use crate::secret::Secret;
use crate::status::status_under;
use pawn_debt::{
    Day, Kind, MOST_ENTRIES, MOST_MILLIONTHS, MOST_PENCE, Owing, Terms, Totals, owing_from,
};
use pawn_terms::LAST_REQUEST_DAY;
use std::marker::Model;

/// How many entries, secrets and extensions a pledge has.
#[derive(Clone, Copy)]
pub struct Counts {
    pub entries: usize,
    pub secrets: usize,
    pub extensions: usize,
}

/// A pledge's record with the numbers of its entries, secrets and extensions instead of these lists. The fields need
/// not be within the limits; `Brief::of_fields` checks that.
#[derive(Drop)]
pub struct BriefFields {
    pub agreement: Agreement,
    pub counts: Counts,
    pub standing: Standing,
    /// The live secret, unless the pledge is redeemed.
    pub live: Option<Secret>,
    /// The end of the period.
    pub ends: Day,
    /// The totals on the day of the last entry, or on the day taken if there is no entry.
    pub totals: Totals,
}

/// A pledge without its lists of entries, secrets and extensions. In contracts the value is its fields.
#[derive(Drop)]
pub struct Brief {
    fields: BriefFields,
    terms: Terms,
}

impl Model for Brief {
    ghost use Rattle.pawn_debt.specs.Limits.{most_pence, most_millionths};
    ghost use Rattle.pawn_pledge.specs.declared.brief.BriefFields.{BriefFields};
    ghost use Rattle.pawn_terms.specs.Limits.{last_request_day};
    ghost use Rattle.std.specs.Prelude.{◌≡◌, ◌≤◌};

    ghost Value = { BriefFields };

    ghost view = { λ b. b.fields };

    ghost invariant = { λ b. (b.terms ≡ b.fields.agreement.terms)
        × (b.fields.agreement.taken ≤ last_request_day) × (b.fields.totals.principal ≤ most_pence)
        × (b.fields.totals.millionths ≤ most_millionths) };
}

impl Brief {
    /// The brief with these fields. Returns the fields as the error exactly if one of them breaks a limit.
    pub fn of_fields(fields: BriefFields) -> Result<Brief, BriefFields>
        ensures ok { IfOk result (λ b. (b ≡ fields) × IsBriefWithin fields) }
        ensures err { IfErr result (λ back. back ≡ fields) }
        ensures refused { OnErr result (IsBriefWithin fields → ⊥) }
    {
        match terms_within(&fields) {
            Some(terms) => Ok(Brief { fields, terms }),
            None => Err(fields),
        }
    }

    /// The brief with fields that come from a pledge and therefore need no check.
    pub(crate) fn of_pledge(fields: BriefFields, terms: Terms) -> Brief
        requires terms { terms ≡ fields.agreement.terms }
        requires taken { fields.agreement.taken ≤ last_request_day }
        requires principal_in { fields.totals.principal ≤ most_pence }
        requires millionths_in { fields.totals.millionths ≤ most_millionths }
        ensures value { result ≡ fields }
    {
        Brief { fields, terms }
    }

    /// The fields.
    pub fn fields(&self) -> &BriefFields
        ensures value { result.now ≡ self.now }
    {
        &self.fields
    }

    /// The status of the pledge on a day.
    pub fn status(&self, day: Day) -> Status
        ensures value { result ≡ brief_status self.now day }
    {
        let fields = &self.fields;
        status_under(&fields.agreement, fields.standing.closing, fields.ends, day)
    }

    /// The sum owed in whole pence on a day that is not before the last entry, nor before the day taken.
    pub fn owing(&self, day: Day) -> Owing
        requires later { self.now.totals.day ≤ day }
        ensures value { result ≡ brief_owing self.now day }
    {
        owing_from(&self.fields.totals, &self.terms, self.fields.ends, day)
    }
}

/// The checked terms of the fields, if all fields are within the limits.
fn terms_within(fields: &BriefFields) -> Option<Terms>
    ensures terms { IfSome result (λ terms. terms ≡ fields.now.agreement.terms) }
    ensures within { IfSome result (λ terms. IsBriefWithin fields.now) }
    ensures none { IfNone result (IsBriefWithin fields.now → ⊥) }
{
    let Ok(terms) = fields.agreement.terms.check() else {
        return None;
    };
    if !is_credit_within(fields.agreement.opening.kind) {
        return None;
    }
    if !are_days_within(fields.agreement.taken, fields.standing.last) {
        return None;
    }
    if !are_counts_within(fields.counts) {
        return None;
    }
    if !is_booking_within(fields.standing.booking) {
        return None;
    }
    if !is_closing_within(fields.standing.closing) {
        return None;
    }
    if !are_totals_within(&fields.totals) {
        return None;
    }
    Some(terms)
}

/// Whether a sum or a limit is at least a penny and at most `MOST_PENCE`.
fn is_credit_within(kind: Kind) -> bool
    ensures answer { IsTrue result ↔ ((1 ≤ credit_of kind) × (credit_of kind ≤ most_pence)) }
{
    let credit = kind.credit();
    1 <= credit && credit <= MOST_PENCE
}

/// Whether a request may name both days.
fn are_days_within(taken: Day, last: Day) -> bool
    ensures answer { IsTrue result ↔ ((taken ≤ last_request_day) × (last ≤ last_request_day)) }
{
    taken.count() <= LAST_REQUEST_DAY && last.count() <= LAST_REQUEST_DAY
}

/// Whether there are no more entries, secrets and extensions than a pledge may have.
fn are_counts_within(counts: Counts) -> bool
    ensures answer { IsTrue result ↔ ((counts.entries ≤ most_entries) × (counts.secrets ≤ most_secrets) × (counts.extensions ≤ most_extensions)) }
{
    counts.entries <= MOST_ENTRIES
        && counts.secrets <= MOST_SECRETS
        && counts.extensions <= MOST_EXTENSIONS
}

/// Whether the booking, if there is one, is for a window of a day that a request may name.
fn is_booking_within(booking: Option<Booking>) -> bool
    ensures answer { IsTrue result ↔ IfSome booking IsBookingWithin }
{
    match booking {
        Some(booking) => booking.day.count() <= LAST_REQUEST_DAY && booking.window <= LAST_WINDOW,
        None => true,
    }
}

/// Whether a request may name the day of the closing, and a sale brought at most `MOST_PENCE`.
fn is_closing_within(closing: Closing) -> bool
    ensures answer { IsTrue result ↔ IsClosingWithin closing }
{
    match closing {
        Closing::Open => true,
        Closing::Redeemed { day, .. } => day.count() <= LAST_REQUEST_DAY,
        Closing::Sold { day, net } => day.count() <= LAST_REQUEST_DAY && net <= MOST_PENCE,
    }
}

/// Whether a request may name the day of the totals, and both sums are within their limits.
fn are_totals_within(totals: &Totals) -> bool
    ensures answer { IsTrue result ↔ AreTotalsWithin totals.now }
{
    totals.day.count() <= LAST_REQUEST_DAY
        && totals.principal <= MOST_PENCE
        && totals.millionths <= MOST_MILLIONTHS
}
