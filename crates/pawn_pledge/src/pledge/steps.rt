//! The commands on a pledge, each with its refusals.

ghost use Rattle.pawn_pledge.specs.Common.{Entry, first_of};
ghost use Rattle.pawn_pledge.specs.Limits.{most_secrets};
ghost use Rattle.pawn_pledge.specs.Pledge.{end_of};
ghost use Rattle.pawn_pledge.specs.Step.{Changed, IsApplied, IsStep, ask_once, ask_step, shared_refusals, cancel_step, confirm_in};
ghost use Rattle.pawn_pledge.specs.Step.{decide_step, declare_refusals, declare_step, decline_in, entry_of, entry_step};
ghost use Rattle.pawn_pledge.specs.Step.{extend_step, hold_step, makes_booking, numbered_step, pledge_step};
ghost use Rattle.pawn_pledge.specs.Step.{redeem_step, sell_step, unless};
ghost use Rattle.pawn_pledge.specs.Words.{after_closing, booking_after, in_state, is_ahead, is_repeat, is_active};
ghost use Rattle.pawn_pledge.specs.Words.{issue_of, new_entry, with_extension, with_secret};
ghost use Rattle.std.specs.Prelude.{◌≡◌, ◌≤◌, ◌<◌, length, Ok, OnOk};

use super::Pledge;
use crate::command::{Applied, Command, Decision, Done, Paper, Stamp};
use crate::limits::{LAST_WINDOW, MOST_EXTENSIONS, MOST_SECRETS};
use crate::record::{Booking, BookingState, Closing, Extension, Issue, Issued, Status};
use crate::refusal::Refusal;
use crate::secret::Secret;
use crate::status::is_small;
use pawn_debt::{Day, DebtFault, Entry, MOST_PENCE, Sort};

impl Pledge {
    /// Carries out one command, and returns its answer or the first refusal that applies. A refused command leaves the
    /// pledge unchanged. Only a command that adds an entry, a secret or an extension is refused as `Memory`.
    pub fn apply(&mut self, stamp: &Stamp, command: &Command) -> Result<Done, Refusal>
        ensures step { IsStep (pledge_step self.old stamp.now command.now) self.old result self.new }
    {
        match self.apply_with_report(stamp, command) {
            Ok(applied) => Ok(applied.done),
            Err(refusal) => Err(refusal),
        }
    }

    /// Carries out one command as `apply` does, and also reports whether it changed the pledge. Some commands whose
    /// effect is already there, such as an entry that is sent again, are answered and change nothing.
    pub fn apply_with_report(
        &mut self,
        stamp: &Stamp,
        command: &Command,
    ) -> Result<Applied, Refusal>
        ensures step { IsApplied (pledge_step self.old stamp.now command.now) self.old result self.new }
    {
        let day = stamp.day.day();
        match *command {
            Command::Draw { seq, pence } => self.enter(day, seq, Sort::Draw, pence),
            Command::Repay { seq, pence } => self.enter(day, seq, Sort::Repay, pence),
            Command::Hold => self.hold(day, true),
            Command::Release => self.hold(day, false),
            Command::Declare(paper) => self.declare(stamp, paper),
            Command::AskBooking {
                day: wanted,
                window,
            } => self.ask(day, wanted.day(), window),
            Command::CancelBooking => self.cancel(day),
            Command::DecideBooking(decision) => self.decide(day, decision),
            Command::Redeem { paid } => self.redeem(day, paid),
            Command::Sell { net } => self.sell(day, net),
            Command::Extend { until } => self.extend(day, until.day()),
        }
    }

    /// Checks the refusals that all commands share: a day before the last change, a closed pledge, and a pledge that
    /// has passed. A repeated entry is answered before this check.
    fn check_shared_refusals(&self, day: Day) -> Result<(), Refusal>
        ensures answer { result ≡ first_of (shared_refusals self.now day) (Ok tt) }
        ensures later { OnOk result (self.now.standing.last ≤ day) }
    {
        if day < self.standing.last {
            return Err(Refusal::Debt(DebtFault::EarlierDay));
        }
        let Closing::Open = self.standing.closing else {
            return Err(Refusal::Closed);
        };
        if let Status::Passed = self.open_status(day) {
            return Err(Refusal::Passed);
        }
        Ok(())
    }

    /// Enters a drawing or a repayment. If its number is taken, a repeat gets the answer of the first time, and an
    /// entry that differs is refused.
    fn enter(&mut self, day: Day, seq: u64, sort: Sort, pence: u64) -> Result<Applied, Refusal>
        ensures step { IsApplied (numbered_step self.old day seq sort pence (entry_of self.old seq)) self.old result self.new }
    {
        let existing = self.debt.entry(seq);
        self.enter_once(existing, day, seq, sort, pence)
    }

    /// Does the same as `enter`, given `existing`, the entry that already has this number, if there is one.
    fn enter_once(
        &mut self,
        existing: Option<Entry>,
        day: Day,
        seq: u64,
        sort: Sort,
        pence: u64,
    ) -> Result<Applied, Refusal>
        ensures step { IsApplied (numbered_step self.old day seq sort pence existing) self.old result self.new }
    {
        if let Some(entry) = existing {
            if !is_repeat(&entry, sort, pence) {
                return Err(Refusal::SeqTaken);
            }
            return Ok(Applied::of_answer(Done::Entered(entry)));
        }
        if self.is_ahead(seq) {
            return Err(Refusal::SeqAhead);
        }
        self.check_shared_refusals(day)?;
        match sort {
            Sort::Draw => self.draw(day, pence),
            Sort::Repay => self.repay(day, pence),
        }
    }

    /// Whether the number of a new entry is 0, or above the next number.
    fn is_ahead(&self, seq: u64) -> bool
        ensures value { result ≡ is_ahead self.now seq }
    {
        seq == 0 || seq > self.debt.count() as u64 + 1
    }

    /// The entry that would be entered next.
    fn next_entry(&self, day: Day, sort: Sort, pence: u64) -> Entry
        ensures value { result ≡ new_entry self.now day sort pence }
    {
        Entry {
            seq: self.debt.count() as u64 + 1,
            day,
            sort,
            pence,
        }
    }

    /// Enters a drawing as the next entry.
    fn draw(&mut self, day: Day, pence: u64) -> Result<Applied, Refusal>
        requires later { self.old.standing.last ≤ day }
        ensures step { IsApplied (entry_step self.old day Sort.Draw pence) self.old result self.new }
    {
        if day > self.debt.ends() {
            return Err(Refusal::PeriodOver);
        }
        let entry = self.next_entry(day, Sort::Draw, pence);
        self.debt.draw(day, pence)?;
        self.standing.last = day;
        Ok(Applied::of_change(Done::Entered(entry)))
    }

    /// Enters a repayment as the next entry.
    fn repay(&mut self, day: Day, pence: u64) -> Result<Applied, Refusal>
        requires later { self.old.standing.last ≤ day }
        ensures step { IsApplied (entry_step self.old day Sort.Repay pence) self.old result self.new }
    {
        let entry = self.next_entry(day, Sort::Repay, pence);
        self.debt.repay(day, pence)?;
        self.standing.last = day;
        Ok(Applied::of_change(Done::Entered(entry)))
    }

    /// Puts the pledge on hold, or ends the hold. If the flag already has this value, nothing changes.
    fn hold(&mut self, day: Day, flag: bool) -> Result<Applied, Refusal>
        ensures step { IsApplied (unless (shared_refusals self.old day) (hold_step self.old day flag)) self.old result self.new }
    {
        self.check_shared_refusals(day)?;
        if self.standing.held == flag {
            return Ok(Applied::of_answer(Done::Held(flag)));
        }
        self.standing.held = flag;
        self.standing.last = day;
        Ok(Applied::of_change(Done::Held(flag)))
    }

    /// Issues the stamp's word as the new secret, on a declaration.
    fn declare(&mut self, stamp: &Stamp, paper: Paper) -> Result<Applied, Refusal>
        ensures step { IsApplied (unless (shared_refusals self.old stamp.now.day) (declare_step self.old stamp.now paper)) self.old result self.new }
    {
        let day = stamp.day.day();
        self.check_shared_refusals(day)?;
        let issued = Issued {
            day,
            sort: paper.issue(),
            secret: Secret::of_word(stamp.word),
        };
        self.may_declare(paper, &issued)?;
        self.issue(issued)
    }

    /// Checks the refusals that only a declaration can have.
    fn may_declare(&self, paper: Paper, issued: &Issued) -> Result<(), Refusal>
        ensures answer { result ≡ first_of (declare_refusals self.now paper issued.now.secret) (Ok tt) }
        ensures few { OnOk result (length self.now.secrets < most_secrets) }
    {
        if paper == Paper::Written && !is_small(self.agreement.opening.kind.credit()) {
            return Err(Refusal::NotSmall);
        }
        if self.secrets.len() >= MOST_SECRETS {
            return Err(Refusal::DeclarationsFull);
        }
        if issued.is_among(self.secrets.as_slice()) {
            return Err(Refusal::SecretUsed);
        }
        Ok(())
    }

    /// Adds a secret to the pledge, which becomes the live one.
    fn issue(&mut self, issued: Issued) -> Result<Applied, Refusal>
        requires few { length self.old.secrets < most_secrets }
        requires later { self.old.standing.last ≤ issued.day }
        ensures step { IsApplied (Changed (with_secret self.old issued) (Done.Declared issued.secret)) self.old result self.new }
    {
        let day = issued.day;
        let secret = issued.secret;
        match self.secrets.push(issued) {
            Ok(()) => {
                self.standing.last = day;
                Ok(Applied::of_change(Done::Declared(secret)))
            }
            Err(_) => Err(Refusal::Memory),
        }
    }

    /// Sets the booking, and replaces an earlier one.
    fn book(&mut self, day: Day, booking: &Booking) -> Result<Applied, Refusal>
        requires later { self.old.standing.last ≤ day }
        ensures step { IsApplied (makes_booking self.old day booking.now) self.old result self.new }
    {
        self.standing.booking = Some(*booking);
        self.standing.last = day;
        Ok(Applied::of_change(Done::Booked(*booking)))
    }

    /// Asks for a booking of a day and a window.
    fn ask(&mut self, day: Day, wanted: Day, window: u64) -> Result<Applied, Refusal>
        ensures step { IsApplied (unless (shared_refusals self.old day) (ask_step self.old day wanted window)) self.old result self.new }
    {
        self.check_shared_refusals(day)?;
        if window > LAST_WINDOW {
            return Err(Refusal::BadWindow);
        }
        if wanted < day {
            return Err(Refusal::BookingDay);
        }
        if let Status::Passed = self.open_status(wanted) {
            return Err(Refusal::BookingDay);
        }
        self.ask_once(day, wanted, window)
    }

    /// Asks for a booking whose refusals are checked. If an active booking (asked for or confirmed) already has this
    /// day and window, the answer is that booking and nothing changes.
    fn ask_once(&mut self, day: Day, wanted: Day, window: u64) -> Result<Applied, Refusal>
        requires later { self.old.standing.last ≤ day }
        ensures step { IsApplied (ask_once self.old day wanted window self.old.standing.booking) self.old result self.new }
    {
        let asked = Booking {
            day: wanted,
            window,
            state: BookingState::Asked,
        };
        if let Some(booking) = self.standing.booking {
            if booking.day == wanted && booking.window == window && booking.state.is_active() {
                return Ok(Applied::of_answer(Done::Booked(booking)));
            }
        }
        self.book(day, &asked)
    }

    /// Cancels the booking. If it is already cancelled, the answer is that booking and nothing changes.
    fn cancel(&mut self, day: Day) -> Result<Applied, Refusal>
        ensures step { IsApplied (unless (shared_refusals self.old day) (cancel_step self.old day self.old.standing.booking)) self.old result self.new }
    {
        self.check_shared_refusals(day)?;
        let Some(booking) = self.standing.booking else {
            return Err(Refusal::NoBooking);
        };
        match booking.state {
            BookingState::Asked | BookingState::Confirmed => {
                self.book(day, &booking.in_state(BookingState::Cancelled))
            }
            BookingState::Refused => Err(Refusal::NoBooking),
            BookingState::Cancelled => Ok(Applied::of_answer(Done::Booked(booking))),
        }
    }

    /// Confirms or refuses a booking.
    fn decide(&mut self, day: Day, decision: Decision) -> Result<Applied, Refusal>
        ensures step { IsApplied (unless (shared_refusals self.old day) (decide_step self.old day decision self.old.standing.booking)) self.old
            result self.new }
    {
        self.check_shared_refusals(day)?;
        let Some(booking) = self.standing.booking else {
            return Err(Refusal::NoBooking);
        };
        match decision {
            Decision::Confirm => self.confirm(day, &booking),
            Decision::Refuse => self.decline(day, &booking),
        }
    }

    /// Confirms a booking that is asked for and whose day is not over. If it is already confirmed, nothing changes.
    fn confirm(&mut self, day: Day, booking: &Booking) -> Result<Applied, Refusal>
        requires later { self.old.standing.last ≤ day }
        ensures step { IsApplied (confirm_in self.old day booking.now booking.now.state) self.old result self.new }
    {
        match booking.state {
            BookingState::Asked => {
                if booking.day < day {
                    return Err(Refusal::BookingDay);
                }
                self.book(day, &booking.in_state(BookingState::Confirmed))
            }
            BookingState::Confirmed => Ok(Applied::of_answer(Done::Booked(*booking))),
            BookingState::Refused | BookingState::Cancelled => Err(Refusal::NoBooking),
        }
    }

    /// Refuses an active booking. If it is already refused, nothing changes.
    fn decline(&mut self, day: Day, booking: &Booking) -> Result<Applied, Refusal>
        requires later { self.old.standing.last ≤ day }
        ensures step { IsApplied (decline_in self.old day booking.now booking.now.state) self.old result self.new }
    {
        match booking.state {
            BookingState::Asked | BookingState::Confirmed => {
                self.book(day, &booking.in_state(BookingState::Refused))
            }
            BookingState::Refused => Ok(Applied::of_answer(Done::Booked(*booking))),
            BookingState::Cancelled => Err(Refusal::NoBooking),
        }
    }

    /// Closes the pledge on payment of the sum owed, which is 0 for an account that was never drawn on.
    fn redeem(&mut self, day: Day, paid: u64) -> Result<Applied, Refusal>
        ensures step { IsApplied (unless (shared_refusals self.old day) (redeem_step self.old day paid)) self.old result self.new }
    {
        self.check_shared_refusals(day)?;
        if self.standing.held {
            return Err(Refusal::Held);
        }
        let total = self.debt.owing(day).total;
        if paid != total {
            return Err(Refusal::WrongAmount { total });
        }
        self.standing.booking = booking_after(self.standing.booking);
        self.standing.closing = Closing::Redeemed { day, paid };
        self.standing.last = day;
        Ok(Applied::of_change(Done::Redeemed { day, paid }))
    }

    /// Closes the pledge by a sale for `net` pence.
    fn sell(&mut self, day: Day, net: u64) -> Result<Applied, Refusal>
        ensures step { IsApplied (unless (shared_refusals self.old day) (sell_step self.old day net)) self.old result self.new }
    {
        self.check_shared_refusals(day)?;
        let Status::Realisable = self.open_status(day) else {
            return Err(Refusal::NotRealisable);
        };
        if net > MOST_PENCE {
            return Err(Refusal::Debt(DebtFault::BadAmount));
        }
        let total = self.debt.owing(day).total;
        self.standing.booking = booking_after(self.standing.booking);
        self.standing.closing = Closing::Sold { day, net };
        self.standing.last = day;
        Ok(Applied::of_change(Done::Sold {
            net,
            surplus: net.saturating_sub(total),
            shortfall: total.saturating_sub(net),
        }))
    }

    /// Extends the period to a later end. If `until` is already the end, nothing changes.
    fn extend(&mut self, day: Day, until: Day) -> Result<Applied, Refusal>
        ensures step { IsApplied (unless (shared_refusals self.old day) (extend_step self.old day until)) self.old result self.new }
    {
        self.check_shared_refusals(day)?;
        let ends = self.debt.ends();
        if day > ends {
            return Err(Refusal::PeriodOver);
        }
        if until == ends {
            return Ok(Applied::of_answer(Done::Extended { until }));
        }
        if until < ends {
            return Err(Refusal::NotLater);
        }
        if self.extensions.len() >= MOST_EXTENSIONS {
            return Err(Refusal::ExtensionsFull);
        }
        self.extend_once(Extension { day, until })
    }

    /// Extends the period, after every refusal except out of memory was checked.
    fn extend_once(&mut self, extension: Extension) -> Result<Applied, Refusal>
        requires later { self.old.standing.last ≤ extension.day }
        requires inside { extension.day ≤ end_of self.old }
        requires longer { end_of self.old < extension.until }
        ensures step { IsApplied (Changed (with_extension self.old extension) (Done.Extended extension.until)) self.old result self.new }
    {
        let day = extension.day;
        let until = extension.until;
        match self.extensions.push(extension) {
            Ok(()) => {
                self.debt.extend(until);
                self.standing.last = day;
                Ok(Applied::of_change(Done::Extended { until }))
            }
            Err(_) => Err(Refusal::Memory),
        }
    }
}

impl Booking {
    /// The same booking in another state.
    fn in_state(self, state: BookingState) -> Booking
        ensures value { result ≡ in_state self state }
    {
        Booking {
            day: self.day,
            window: self.window,
            state,
        }
    }
}

impl BookingState {
    /// Whether a booking is active: asked for or confirmed.
    fn is_active(self) -> bool
        ensures value { result ≡ is_active self }
    {
        match self {
            BookingState::Asked | BookingState::Confirmed => true,
            BookingState::Refused | BookingState::Cancelled => false,
        }
    }

    /// The state of the booking after the pledge is closed.
    fn after_closing(self) -> BookingState
        ensures value { result ≡ after_closing self }
    {
        match self {
            BookingState::Asked | BookingState::Confirmed => BookingState::Cancelled,
            BookingState::Refused => BookingState::Refused,
            BookingState::Cancelled => BookingState::Cancelled,
        }
    }
}

impl Paper {
    /// The way in which a secret is issued on this declaration.
    fn issue(self) -> Issue
        ensures value { result ≡ issue_of self }
    {
        match self {
            Paper::Sworn => Issue::Sworn,
            Paper::Written => Issue::Written,
        }
    }
}

/// The booking after its pledge is closed: an active one is cancelled.
fn booking_after(booking: Option<Booking>) -> Option<Booking>
    ensures value { result ≡ booking_after booking }
{
    match booking {
        None => None,
        Some(booking) => Some(booking.in_state(booking.state.after_closing())),
    }
}

/// Whether an entry has this kind and sum, so that a request for it is a repeat.
fn is_repeat(entry: &Entry, sort: Sort, pence: u64) -> bool
    ensures value { result ≡ is_repeat entry.now sort pence }
{
    entry.sort == sort && entry.pence == pence
}
