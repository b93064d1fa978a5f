//! Checks the order of a book's rows while they are read, and collects them.
ghost use Rattle.pawn_csv.specs.Answers.{AnswersBegun, GivesAs, Accepts};
ghost use Rattle.pawn_csv.specs.Order.{begun_of, has_secret, is_whole, may_end, accept, accept_after, on_hand, on_second};
ghost use Rattle.pawn_csv.specs.Order.{accept_before, accept_booking, accept_entry, accept_extension, accept_pledge};
ghost use Rattle.pawn_csv.specs.Order.{accept_secret, accept_terms, pledges_begun, raw_pledge, view_begun};
ghost use Rattle.std.specs.Prelude.{◌≡◌, IfOk, Some, length};

use crate::fault::Cause;
use crate::row::{PledgeColumns, Row, Version};
use pawn_book::{
    Booking, Entries, Entry, Extension, Extensions, Issued, MOST_PLEDGES, MOST_TERMS, Rates, Rows,
    Secrets,
};
use pawn_debt::MOST_ENTRIES;
use pawn_pledge::{MOST_EXTENSIONS, MOST_SECRETS};
use std::alloc::{AllocError, Global};

/// A pledge as collected from the rows that have been read so far. Commands need not be able to produce it.
#[derive(Drop)]
pub(crate) struct RawPledge {
    pub columns: PledgeColumns,
    pub secrets: Secrets,
    pub entries: Entries,
    pub extensions: Extensions,
    pub booking: Option<Booking>,
}

impl RawPledge {
    /// Returns a pledge of which only its own row was read.
    fn new(alloc: Global, columns: PledgeColumns) -> RawPledge
        ensures value { result ≡ raw_pledge columns }
    {
        RawPledge {
            columns,
            secrets: Rows::new(alloc),
            entries: Rows::new(alloc),
            extensions: Rows::new(alloc),
            booking: None,
        }
    }

    /// Returns whether the pledge has a secret. Its first secret is the one of its opening.
    fn has_secret(&self) -> bool
        ensures value { result ≡ has_secret self.now }
    {
        !self.secrets.is_empty()
    }

    /// Accepts the row of a secret.
    fn accept_secret(&mut self, place: u64, issued: Issued) -> Result<(), Cause>
        ensures answer { Accepts (accept_secret self.old place issued) result self.new }
    {
        if self.secrets.len() >= MOST_SECRETS {
            return Err(Cause::TooMany);
        }
        if place != self.secrets.len() as u64 + 1 {
            return Err(Cause::Order);
        }
        if !self.entries.is_empty() || !self.extensions.is_empty() || self.booking.is_some() {
            return Err(Cause::Order);
        }
        match self.secrets.push(issued) {
            Ok(()) => Ok(()),
            Err(_) => Err(Cause::Memory),
        }
    }

    /// Accepts the row of an entry.
    fn accept_entry(&mut self, entry: Entry) -> Result<(), Cause>
        ensures answer { Accepts (accept_entry self.old entry) result self.new }
    {
        if self.entries.len() >= MOST_ENTRIES {
            return Err(Cause::TooMany);
        }
        if entry.seq != self.entries.len() as u64 + 1 {
            return Err(Cause::Order);
        }
        if !self.has_secret() || !self.extensions.is_empty() || self.booking.is_some() {
            return Err(Cause::Order);
        }
        match self.entries.push(entry) {
            Ok(()) => Ok(()),
            Err(_) => Err(Cause::Memory),
        }
    }

    /// Accepts the row of an extension.
    fn accept_extension(&mut self, place: u64, extension: Extension) -> Result<(), Cause>
        ensures answer { Accepts (accept_extension self.old place extension) result self.new }
    {
        if self.extensions.len() >= MOST_EXTENSIONS {
            return Err(Cause::TooMany);
        }
        if place != self.extensions.len() as u64 + 1 {
            return Err(Cause::Order);
        }
        if !self.has_secret() || self.booking.is_some() {
            return Err(Cause::Order);
        }
        match self.extensions.push(extension) {
            Ok(()) => Ok(()),
            Err(_) => Err(Cause::Memory),
        }
    }

    /// Accepts the row of a booking.
    fn accept_booking(&mut self, booking: Booking) -> Result<(), Cause>
        ensures answer { Accepts (accept_booking self.old booking) result self.new }
    {
        if !self.has_secret() || self.booking.is_some() {
            return Err(Cause::Order);
        }
        self.booking = Some(booking);
        Ok(())
    }
}

/// A book of which at least the first row was read. `at_hand` is the pledge whose rows are being read.
#[derive(Drop)]
pub(crate) struct BegunBook {
    pub version: Version,
    /// How many versions of terms the first row states.
    pub terms_due: u64,
    /// How many pledges the first row states.
    pub pledges_due: u64,
    pub terms: Rows<Rates>,
    /// The pledges before the one at hand; their rows are complete.
    pub pledges: Vec<RawPledge>,
    pub at_hand: Option<RawPledge>,
}

/// Returns the book that a first row begins. Fails with `Order` if the row is not the first row of a book
/// (`Row::Book`), and with `TooMany` if one of its counts exceeds its limit.
fn begin(alloc: Global, row: Row) -> Result<BegunBook, Cause>
    ensures answer { GivesAs view_begun (accept_before row) result }
{
    let Row::Book {
        version,
        terms,
        pledges,
    } = &row
    else {
        return Err(Cause::Order);
    };
    if *terms > MOST_TERMS || *pledges > MOST_PLEDGES {
        return Err(Cause::TooMany);
    }
    Ok(BegunBook {
        version: *version,
        terms_due: *terms,
        pledges_due: *pledges,
        terms: Rows::new(alloc),
        pledges: Vec::new(alloc),
        at_hand: None,
    })
}

impl BegunBook {
    /// Returns how many pledges have been begun so far.
    fn count_pledges(&self) -> u64
        ensures value { result ≡ length (pledges_begun (view_begun self.now)) }
    {
        let over = self.pledges.len() as u64;
        if self.at_hand.is_some() {
            over + 1
        } else {
            over
        }
    }

    /// Returns whether the pledge at hand, if there is one, needs no further rows.
    fn may_end(&self) -> bool
        ensures value { result ≡ may_end self.now.at_hand }
    {
        match &self.at_hand {
            None => true,
            Some(pledge) => pledge.has_secret(),
        }
    }

    /// Accepts the row of a version of terms.
    fn accept_terms(&mut self, version: u64, rates: Rates) -> Result<(), Cause>
        ensures answer { Accepts (accept_terms (view_begun self.old) version rates) result (view_begun self.new) }
    {
        if self.terms.len() as u64 >= self.terms_due || version != self.terms.len() as u64 + 1 {
            return Err(Cause::Order);
        }
        if self.count_pledges() != 0 {
            return Err(Cause::Order);
        }
        match self.terms.push(rates) {
            Ok(()) => Ok(()),
            Err(_) => Err(Cause::Memory),
        }
    }

    /// Begins the pledge of these columns. The pledge that was at hand before, if any, is added to the complete ones.
    fn begin_pledge(&mut self, alloc: Global, columns: PledgeColumns) -> Result<(), AllocError>
        ensures begun { IfOk result (λ u. view_begun self.new
            ≡ (record (view_begun self.old) { pledges = pledges_begun (view_begun self.old); at_hand = Some (raw_pledge columns) })) }
    {
        if let Some(pledge) = self.at_hand.replace(RawPledge::new(alloc, columns)) {
            self.pledges.push(pledge)?;
        }
        Ok(())
    }

    /// Accepts a pledge's own row.
    fn accept_pledge(&mut self, alloc: Global, columns: PledgeColumns) -> Result<(), Cause>
        ensures answer { Accepts (accept_pledge (view_begun self.old) columns) result (view_begun self.new) }
    {
        if self.terms.len() as u64 != self.terms_due || !self.may_end() {
            return Err(Cause::Order);
        }
        if columns.number != self.count_pledges() + 1 || columns.number > self.pledges_due {
            return Err(Cause::Order);
        }
        match self.begin_pledge(alloc, columns) {
            Ok(()) => Ok(()),
            Err(_) => Err(Cause::Memory),
        }
    }

    /// Accepts the row of a secret of the pledge at hand.
    fn accept_secret(&mut self, number: u64, place: u64, issued: Issued) -> Result<(), Cause>
        ensures answer { Accepts (on_hand (view_begun self.old) number self.old.at_hand (λ p. accept_secret p place issued)) result (view_begun self.new) }
    {
        match &mut self.at_hand {
            None => Err(Cause::Order),
            Some(pledge) => {
                if pledge.columns.number != number {
                    return Err(Cause::Order);
                }
                pledge.accept_secret(place, issued)
            }
        }
    }

    /// Accepts the row of an entry of the pledge at hand.
    fn accept_entry(&mut self, number: u64, entry: Entry) -> Result<(), Cause>
        ensures answer { Accepts (on_hand (view_begun self.old) number self.old.at_hand (λ p. accept_entry p entry)) result (view_begun self.new) }
    {
        match &mut self.at_hand {
            None => Err(Cause::Order),
            Some(pledge) => {
                if pledge.columns.number != number {
                    return Err(Cause::Order);
                }
                pledge.accept_entry(entry)
            }
        }
    }

    /// Accepts the row of an extension of the pledge at hand. Fails with `BadField` if the text has version 1, which
    /// has no extensions.
    fn accept_extension(
        &mut self,
        number: u64,
        place: u64,
        extension: Extension,
    ) -> Result<(), Cause>
        ensures answer { Accepts (on_second self.old.version
            (on_hand (view_begun self.old) number self.old.at_hand (λ p. accept_extension p place extension))) result (view_begun self.new) }
    {
        if let Version::One = self.version {
            return Err(Cause::BadField);
        }
        match &mut self.at_hand {
            None => Err(Cause::Order),
            Some(pledge) => {
                if pledge.columns.number != number {
                    return Err(Cause::Order);
                }
                pledge.accept_extension(place, extension)
            }
        }
    }

    /// Accepts the row of the booking of the pledge at hand.
    fn accept_booking(&mut self, number: u64, booking: Booking) -> Result<(), Cause>
        ensures answer { Accepts (on_hand (view_begun self.old) number self.old.at_hand (λ p. accept_booking p booking)) result (view_begun self.new) }
    {
        match &mut self.at_hand {
            None => Err(Cause::Order),
            Some(pledge) => {
                if pledge.columns.number != number {
                    return Err(Cause::Order);
                }
                pledge.accept_booking(booking)
            }
        }
    }

    /// Accepts a row after the first.
    fn accept(&mut self, alloc: Global, row: Row) -> Result<(), Cause>
        ensures answer { Accepts (accept_after (view_begun self.old) row) result (view_begun self.new) }
    {
        match row {
            Row::Book { terms, pledges, .. } => {
                if terms > MOST_TERMS || pledges > MOST_PLEDGES {
                    return Err(Cause::TooMany);
                }
                Err(Cause::Order)
            }
            Row::Terms { version, rates } => self.accept_terms(version, rates),
            Row::Pledge(columns) => self.accept_pledge(alloc, columns),
            Row::Secret {
                number,
                place,
                issued,
            } => self.accept_secret(number, place, issued),
            Row::Entry { number, entry } => self.accept_entry(number, entry),
            Row::Extension {
                number,
                place,
                extension,
            } => self.accept_extension(number, place, extension),
            Row::Booking { number, booking } => self.accept_booking(number, booking),
        }
    }

    /// Returns whether there are as many versions of terms and pledges as the first row states, and the last pledge
    /// needs no further rows.
    pub(crate) fn is_whole(&self) -> bool
        ensures value { result ≡ is_whole (Some (view_begun self.now)) }
    {
        self.terms.len() as u64 == self.terms_due
            && self.count_pledges() == self.pledges_due
            && self.may_end()
    }
}

/// The book that the rows so far make. It is empty before the first row.
#[derive(Drop)]
pub(crate) struct RawBook {
    pub begun: Option<BegunBook>,
}

impl RawBook {
    /// Accepts the next row.
    pub(crate) fn accept(&mut self, alloc: Global, row: Row) -> Result<(), Cause>
        ensures answer { AnswersBegun (accept (begun_of self.old) row) result (begun_of self.new) }
    {
        match &mut self.begun {
            Some(begun) => begun.accept(alloc, row),
            None => {
                self.begun = Some(begin(alloc, row)?);
                Ok(())
            }
        }
    }
}
