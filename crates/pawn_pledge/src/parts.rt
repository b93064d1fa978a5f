//! `Parts`, the record of a pledge as plain fields, and the checks on it.

ghost use Rattle.pawn_pledge.specs.Common.{DoNotFall, Each, IsOwed, last_by, last_request_day};
ghost use Rattle.pawn_pledge.specs.Parts.{AreIssuedIn, IsLimited, IsTyped};
ghost use Rattle.pawn_pledge.specs.Pledge.{debt_of, end_of, is_passed, last_until, open_status};
ghost use Rattle.pawn_pledge.specs.Replayable.{AreDistinctSecrets, AreExtended, AreIssued, IsBooked, IsClosed};
ghost use Rattle.pawn_pledge.specs.Replayable.{IsDrawnBy, IsLaterIssue, IsOverUnder, IsReachable};
ghost use Rattle.std.specs.Prelude.{◌≡◌, ◌≤◌, ◌↔◌, IsTrue, IfSome, IfNone, IfOk};

use crate::limits::{LAST_WINDOW, MOST_EXTENSIONS, MOST_SECRETS};
use crate::record::{
    Agreement, Booking, BookingState, Closing, Extension, Extensions, Issue, Issued, Secrets,
    Standing, Status,
};
use crate::status::{is_small, status_by};
use pawn_debt::{Day, Entries, Entry, MOST_PENCE, Sort, Terms, Totals, owing_at, replay_entries};
use pawn_terms::LAST_REQUEST_DAY;
use std::alloc::AllocError;

/// The record of a pledge as plain fields. It need not be one that a pledge can have; `is_reachable` checks that.
#[derive(Drop)]
pub struct Parts {
    pub agreement: Agreement,
    pub entries: Entries,
    pub secrets: Secrets,
    pub extensions: Extensions,
    pub standing: Standing,
}

impl Parts {
    /// Whether a pledge can have this record: whether commands can produce it, and it is within the limits.
    pub fn is_reachable(&self) -> bool
        ensures answer { IsTrue result ↔ IsReachable self.now }
    {
        validate(self).is_some()
    }

    /// A copy of the record. Fails only if memory runs out.
    pub fn copy(&self) -> Result<Parts, AllocError>
        ensures same { IfOk result (λ parts. parts ≡ self.now) }
    {
        let agreement = self.agreement.copy()?;
        let entries = self.entries.copy()?;
        let secrets = self.secrets.copy()?;
        let extensions = self.extensions.copy()?;
        Ok(Parts {
            agreement,
            entries,
            secrets,
            extensions,
            standing: self.standing,
        })
    }
}

/// Whether each extension was agreed for a later end, within the period as it was on that day, and none was agreed
/// after `last`, the day of the last change.
fn are_extended(taken: Day, first_end: Day, last: Day, extensions: &[Extension]) -> bool
    ensures answer { IsTrue result ↔ (AreExtended taken first_end extensions.now × (last_by (λ e. e.day) taken extensions.now ≤ last)) }
{
    let mut day = taken;
    let mut ends = first_end;
    for e in extensions {
        if e.day < day || e.day > ends || e.until <= ends {
            return false;
        }
        day = e.day;
        ends = e.until;
    }
    day <= last
}

/// The end of the last extension, if there is one.
fn last_until(extensions: &[Extension]) -> Option<Day>
    ensures value { result ≡ last_until extensions.now }
{
    extensions.last().map(|extension| extension.until)
}

/// Whether no drawing is after the end of the period.
fn are_drawn(ends: Day, entries: &[Entry]) -> bool
    ensures answer { IsTrue result ↔ Each (λ e. IsDrawnBy ends e.sort e.day) entries.now }
{
    for e in entries {
        if let Sort::Draw = e.sort {
            if e.day > ends {
                return false;
            }
        }
    }
    true
}

/// Whether a secret after the first may have been issued in this way: on a statutory declaration, or on a written
/// statement if the credit is small.
fn is_later_issue(credit: u64, sort: Issue) -> bool
    ensures answer { IsTrue result ↔ IsLaterIssue credit sort }
{
    match sort {
        Issue::Opening => false,
        Issue::Sworn => true,
        Issue::Written => is_small(credit),
    }
}

/// Whether all of these secrets may have been issued after the first.
fn are_later_issues(credit: u64, issued: &[Issued]) -> bool
    ensures answer { IsTrue result ↔ Each (λ j. IsLaterIssue credit j.sort) issued.now }
{
    for i in issued {
        if !is_later_issue(credit, i.sort) {
            return false;
        }
    }
    true
}

/// Whether no two secrets are the same.
fn are_distinct(issued: &[Issued]) -> bool
    ensures answer { IsTrue result ↔ AreDistinctSecrets issued.now }
{
    for i in 0..issued.len() {
        if issued[i].is_among(&issued[i + 1..]) {
            return false;
        }
    }
    true
}

/// Whether the secrets are in the order of their days, none before the day taken and none after `last`, the day of the
/// last change.
fn do_not_fall(taken: Day, last: Day, issued: &[Issued]) -> bool
    ensures answer { IsTrue result ↔ (DoNotFall (λ i. i.day) taken issued.now × (last_by (λ i. i.day) taken issued.now ≤ last)) }
{
    let mut day = taken;
    for i in issued {
        if i.day < day {
            return false;
        }
        day = i.day;
    }
    day <= last
}

/// Whether the property has passed on a day, if the pledge is not closed.
fn is_passed_on(parts: &Parts, ends: Day, day: Day) -> bool
    requires ends { ends ≡ end_of parts.now }
    requires taken { parts.now.agreement.taken ≤ last_request_day }
    ensures value { result ≡ is_passed (open_status parts.now day) }
{
    match status_by(&parts.agreement, ends, day) {
        Status::Passed => true,
        _ => false,
    }
}

/// Whether a booking may have this state with this closing: a closed pledge has no active booking.
fn is_over_under(closing: Closing, state: BookingState) -> bool
    ensures answer { IsTrue result ↔ IsOverUnder closing state }
{
    match closing {
        Closing::Open => true,
        Closing::Redeemed { .. } | Closing::Sold { .. } => match state {
            BookingState::Asked | BookingState::Confirmed => false,
            BookingState::Refused | BookingState::Cancelled => true,
        },
    }
}

/// Whether there is no booking, or commands can produce it.
fn is_booked(parts: &Parts, ends: Day) -> bool
    requires ends { ends ≡ end_of parts.now }
    requires taken { parts.now.agreement.taken ≤ last_request_day }
    ensures answer { IsTrue result ↔ IsBooked parts.now parts.now.standing.booking }
{
    let Some(b) = parts.standing.booking else {
        return true;
    };
    if b.day < parts.agreement.taken {
        return false;
    }
    if is_passed_on(parts, ends, b.day) {
        return false;
    }
    if b.window > LAST_WINDOW {
        return false;
    }
    is_over_under(parts.standing.closing, b.state)
}

/// Whether the pledge is open, or a command can have closed it in this way.
fn is_closed(parts: &Parts, terms: Terms, ends: Day, totals: &Totals) -> bool
    requires terms { terms ≡ parts.now.agreement.terms }
    requires ends { ends ≡ end_of parts.now }
    requires taken { parts.now.agreement.taken ≤ last_request_day }
    requires kept { IsOwed (debt_of parts.now) totals.now }
    requires later { totals.now.day ≤ parts.now.standing.last }
    ensures answer { IsTrue result ↔ IsClosed parts.now parts.now.standing.closing }
{
    match parts.standing.closing {
        Closing::Open => true,
        Closing::Redeemed { day, paid } => {
            let entries = parts.entries.as_slice();
            let owing = owing_at(
                parts.agreement.opening.kind,
                terms,
                parts.agreement.taken,
                ends,
                entries,
                totals,
                parts.standing.last,
            );
            if day != parts.standing.last {
                return false;
            }
            if parts.standing.held {
                return false;
            }
            paid == owing.total
        }
        Closing::Sold { day, net } => {
            if day != parts.standing.last {
                return false;
            }
            let Status::Realisable = status_by(&parts.agreement, ends, day) else {
                return false;
            };
            net <= MOST_PENCE
        }
    }
}

/// Whether the first secret was issued when the pledge was taken, and all later ones on declarations that the credit
/// allows.
fn are_issued(taken: Day, credit: u64, issued: &[Issued]) -> bool
    ensures answer { IsTrue result ↔ AreIssued taken credit issued.now }
{
    let [first, rest @ ..] = issued else {
        return false;
    };
    let Issue::Opening = first.sort else {
        return false;
    };
    if first.day != taken {
        return false;
    }
    are_later_issues(credit, rest)
}

/// Whether no drawing of the record is after the end of the period.
fn are_drawn_in(parts: &Parts, ends: Day) -> bool
    requires ends { ends ≡ end_of parts.now }
    ensures answer { IsTrue result ↔ Each (λ e. IsDrawnBy (end_of parts.now) e.sort e.day) parts.now.entries }
{
    are_drawn(ends, parts.entries.as_slice())
}

/// Whether each extension is to a day that a request may name.
fn are_named(extensions: &[Extension]) -> bool
    ensures answer { IsTrue result ↔ Each (λ e. e.until ≤ last_request_day) extensions.now }
{
    for extension in extensions {
        if extension.until.count() > LAST_REQUEST_DAY {
            return false;
        }
    }
    true
}

/// Whether the booking is for a day that a request may name.
fn is_named(booking: Option<Booking>) -> bool
    ensures answer { IsTrue result ↔ IfSome booking (λ b. b.day ≤ last_request_day) }
{
    match booking {
        Some(booking) => booking.day.count() <= LAST_REQUEST_DAY,
        None => true,
    }
}

/// Values computed from a record that a pledge can have: its checked terms, the end of its period, and the totals on
/// the day of the last entry.
#[derive(Clone, Copy)]
pub(crate) struct Found {
    pub terms: Terms,
    pub ends: Day,
    pub totals: Totals,
}

/// Checks a record. Returns the values computed from it, or `None` if no pledge can have the record.
pub(crate) fn validate(parts: &Parts) -> Option<Found>
    ensures reachable { IfSome result (λ f. IsReachable parts.now) }
    ensures terms { IfSome result (λ f. f.terms ≡ parts.now.agreement.terms) }
    ensures ends { IfSome result (λ f. f.ends ≡ end_of parts.now) }
    ensures kept { IfSome result (λ f. IsOwed (debt_of parts.now) f.totals) }
    ensures none { IfNone result (IsReachable parts.now → ⊥) }
{
    let Ok(terms) = parts.agreement.terms.check() else {
        return None;
    };
    if !is_limited(parts) {
        return None;
    }
    if parts.standing.last < parts.agreement.taken {
        return None;
    }
    let taken = parts.agreement.taken;
    let extensions = parts.extensions.as_slice();
    let first = parts.agreement.end_with(None);
    if !are_extended(taken, first, parts.standing.last, extensions) {
        return None;
    }
    let ends = parts.agreement.end_with(last_until(extensions));
    let entries = parts.entries.as_slice();
    let totals = replay_entries(parts.agreement.opening.kind, terms, taken, ends, entries)?;
    if totals.day > parts.standing.last {
        return None;
    }
    if !are_drawn_in(parts, ends) {
        return None;
    }
    if is_passed_on(parts, ends, parts.standing.last) {
        return None;
    }
    if !are_issued_in(parts) {
        return None;
    }
    if !is_booked(parts, ends) {
        return None;
    }
    if !is_closed(parts, terms, ends, &totals) {
        return None;
    }
    Some(Found {
        terms,
        ends,
        totals,
    })
}

/// Whether the record is within the limits. The number of entries is not checked here, since `replay_entries` checks
/// it.
fn is_limited(parts: &Parts) -> bool
    ensures limits { IsTrue result ↔ IsLimited parts.now }
    ensures types { IsTyped parts.now }
{
    parts.agreement.number.know_limits();
    parts.agreement.opening.know_limits();
    let credit = parts.agreement.opening.kind.credit();
    if credit == 0 || credit > MOST_PENCE {
        return false;
    }
    if parts.standing.last.count() > LAST_REQUEST_DAY {
        return false;
    }
    if parts.secrets.len() > MOST_SECRETS {
        return false;
    }
    if parts.extensions.len() > MOST_EXTENSIONS {
        return false;
    }
    are_named(parts.extensions.as_slice()) && is_named(parts.standing.booking)
}

/// Whether commands can have issued these secrets.
fn are_issued_in(parts: &Parts) -> bool
    ensures answer { IsTrue result ↔ AreIssuedIn parts.now }
{
    let issued = parts.secrets.as_slice();
    if !are_issued(
        parts.agreement.taken,
        parts.agreement.opening.kind.credit(),
        issued,
    ) {
        return false;
    }
    are_distinct(issued) && do_not_fall(parts.agreement.taken, parts.standing.last, issued)
}
