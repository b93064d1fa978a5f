//! The parts of a pledge's record: its agreement, secrets, booking, extensions and closing. Also its statuses.

ghost use Rattle.pawn_pledge.specs.Pledge.{live_under};
ghost use Rattle.pawn_pledge.specs.Words.{state_text};
ghost use Rattle.std.specs.Prelude.{◌≡◌};

use crate::limits::{MOST_ARTICLE_BYTES, MOST_REFERENCE_BYTES};
use crate::number::Number;
use crate::secret::Secret;
use pawn_base::Text;
use pawn_debt::{Day, Kind, Rates, Rows};
use pawn_terms::{RequestDay, last_day};
use std::alloc::AllocError;

/// The broker's own reference for a pledge, in 1 to 40 bytes.
pub type Reference = Text<MOST_REFERENCE_BYTES>;

/// The description of the article, in 1 to 80 bytes.
pub type Article = Text<MOST_ARTICLE_BYTES>;

/// The data of a request for a new pledge: the article, the credit, and what is agreed on the period.
#[derive(Drop)]
pub struct Opening {
    pub reference: Reference,
    pub article: Article,
    pub kind: Kind,
    /// The agreed end of the period. It counts only if it is after the six months.
    pub agreed: Option<RequestDay>,
    /// Whether five days of grace follow the end of the period.
    pub five_days: bool,
}

impl Opening {
    ghost use Rattle.pawn_pledge.specs.Replayable.{IsOpening};
    ghost use Rattle.pawn_terms.specs.Calendar.{IsRequestDay};
    ghost use Rattle.std.specs.Prelude.{◌≡◌, IfOk, IfSome};

    /// A copy of the opening. Fails only if memory runs out.
    pub fn copy(&self) -> Result<Opening, AllocError>
        ensures same { IfOk result (λ opening. opening ≡ self.now) }
    {
        let reference = self.reference.copy()?;
        let article = self.article.copy()?;
        Ok(Opening {
            reference,
            article,
            kind: self.kind,
            agreed: self.agreed,
            five_days: self.five_days,
        })
    }

    /// The agreed end, if there is one, as a `Day`.
    fn agreed_end(&self) -> Option<Day>
        ensures value { result ≡ self.now.agreed }
        ensures in_range { IfSome self.now.agreed IsRequestDay }
    {
        match self.agreed {
            Some(day) => Some(day.day()),
            None => None,
        }
    }

    /// Reads the fields, which gives a proof that they are within their limits.
    pub(crate) fn know_limits(&self)
        ensures within { IsOpening self.now }
    {
        let _ = self.reference.as_str();
        let _ = self.article.as_str();
        let _ = self.agreed_end();
    }
}

/// The part of a pledge's record that never changes: its opening, with the number, the day and the terms that the
/// pledge was given.
#[derive(Drop)]
pub struct Agreement {
    /// The pledge's number in its book.
    pub number: Number,
    pub opening: Opening,
    /// The day on which the pledge was taken.
    pub taken: Day,
    /// The version of the terms in the book.
    pub version: u64,
    pub terms: Rates,
}

impl Agreement {
    ghost use Rattle.pawn_pledge.specs.Pledge.{end_with};
    ghost use Rattle.pawn_terms.specs.Limits.{last_request_day};
    ghost use Rattle.std.specs.Prelude.{◌≡◌, ◌≤◌, IfOk};

    /// A copy of the agreement. Fails only if memory runs out.
    pub fn copy(&self) -> Result<Agreement, AllocError>
        ensures same { IfOk result (λ agreement. agreement ≡ self.now) }
    {
        let opening = self.opening.copy()?;
        Ok(Agreement {
            number: self.number,
            opening,
            taken: self.taken,
            version: self.version,
            terms: self.terms,
        })
    }

    /// The end of the period, given the end of the last extension, if there is one.
    pub(crate) fn end_with(&self, extended: Option<Day>) -> Day
        requires taken { self.now.taken ≤ last_request_day }
        ensures value { result ≡ end_with self.now extended }
    {
        last_day(self.taken, self.opening.agreed_end(), extended)
    }
}

/// The way in which a secret was issued.
#[derive(Clone, Copy, PartialEq, Eq)]
pub enum Issue {
    /// When the pledge was taken.
    Opening,
    /// On a statutory declaration.
    Sworn,
    /// On a signed written statement.
    Written,
}

/// A secret, and the day and the way in which it was issued.
#[derive(Clone, Copy, PartialEq, Eq)]
pub struct Issued {
    pub day: Day,
    pub sort: Issue,
    pub secret: Secret,
}

impl Issued {
    ghost use Rattle.std.specs.List.{list_any};
    ghost use Rattle.std.specs.Prelude.{◌≡◌, ◌==◌};

    /// Whether one of `others` has the same secret.
    pub(crate) fn is_among(&self, others: &[Issued]) -> bool
        ensures value { result ≡ list_any (λ i. i.secret == self.now.secret) others.now }
    {
        let word = self.secret.word();
        others.iter().any(|other| other.secret.word() == word)
    }
}

/// The issued secrets, in order.
pub type Secrets = Rows<Issued>;

/// The state of a booking.
#[derive(Clone, Copy, PartialEq, Eq)]
pub enum BookingState {
    Asked,
    Confirmed,
    Refused,
    Cancelled,
}

impl BookingState {
    /// The word for the state in replies, statements and CSV: `asked`, `confirmed`, `refused` or `cancelled`.
    pub fn word(self) -> &'static str
        ensures word { result.now ≡ state_text self }
    {
        match self {
            BookingState::Asked => "asked",
            BookingState::Confirmed => "confirmed",
            BookingState::Refused => "refused",
            BookingState::Cancelled => "cancelled",
        }
    }
}

/// A visit that a bearer asked for: a day, and a window of that day, 0 to 15.
#[derive(Clone, Copy, PartialEq, Eq)]
pub struct Booking {
    pub day: Day,
    pub window: u64,
    pub state: BookingState,
}

/// An extension of the period: the day on which it was agreed, and the new end of the period.
#[derive(Clone, Copy, PartialEq, Eq)]
pub struct Extension {
    pub day: Day,
    pub until: Day,
}

/// The extensions of a period, in order.
pub type Extensions = Rows<Extension>;

/// Whether and how a pledge was closed. Sums are in pence.
#[derive(Clone, Copy)]
pub enum Closing {
    Open,
    Redeemed { day: Day, paid: u64 },
    Sold { day: Day, net: u64 },
}

impl Closing {
    /// The live secret of a pledge with this closing: the last that was issued, unless the pledge is redeemed.
    pub fn live_secret(self, last: Option<Secret>) -> Option<Secret>
        ensures value { result ≡ live_under self last }
    {
        match self {
            Closing::Redeemed { .. } => None,
            Closing::Open | Closing::Sold { .. } => last,
        }
    }
}

/// The part of a pledge's record that later commands replace: the hold, the booking, the day of the last change, and
/// the closing.
#[derive(Clone, Copy)]
pub struct Standing {
    /// Whether the pledge is on hold, so that it cannot be redeemed.
    pub held: bool,
    pub booking: Option<Booking>,
    /// The day of the last change.
    pub last: Day,
    pub closing: Closing,
}

/// The status of a pledge on a day.
#[derive(Clone, Copy)]
pub enum Status {
    /// In its period.
    Inside,
    /// In the five days of grace after its period, if it was agreed with them.
    Grace,
    /// After its period and any days of grace. The broker may sell it, and it may be redeemed until it is sold.
    Realisable,
    /// The property has passed to the pawnbroker.
    Passed,
    Redeemed,
    Sold,
}
