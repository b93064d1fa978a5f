//! `Refusal`, the reasons why a command on a pledge is refused.

ghost use Rattle.std.specs.Prelude.{◌≡◌};

use pawn_debt::DebtFault;
use std::error::Error;
use std::fmt;

/// The reason why a command on a pledge is refused.
#[derive(Clone, Copy, Debug, PartialEq, Eq)]
pub enum Refusal {
    /// A refusal of the debt, by its own rules.
    Debt(DebtFault),
    /// The pledge has an entry with this number, but of another kind or sum.
    SeqTaken,
    /// The number of a new entry is 0, or above the next number.
    SeqAhead,
    /// A redemption of a pledge that is on hold.
    Held,
    /// The property has passed to the pawnbroker.
    Passed,
    /// The pledge is redeemed or sold.
    Closed,
    /// A sale before the pledge is realisable.
    NotRealisable,
    /// A written statement on a credit that is not small.
    NotSmall,
    /// The pledge already has the new secret. A secret of another pledge is not refused, because the refusal would
    /// reveal that it is a secret.
    SecretUsed,
    /// The pledge has 101 secrets, the most that it may have.
    DeclarationsFull,
    /// A redemption that does not pay exactly the sum owed; `total` is the sum owed, in pence.
    WrongAmount { total: u64 },
    /// There is no booking, or none in a state that the command can change.
    NoBooking,
    /// A booking for a day that is over, or on which the property will have passed.
    BookingDay,
    /// A window above 15.
    BadWindow,
    /// A drawing or an extension after the end of the period.
    PeriodOver,
    /// An extension to an earlier end.
    NotLater,
    /// The pledge has 99 extensions, the most that it may have.
    ExtensionsFull,
    /// Out of memory for a new entry, secret or extension.
    Memory,
}

impl Refusal {
    ghost use Rattle.pawn_pledge.specs.Refusal.{pledge_refusal_code, pledge_refusal_name, refusal_total};

    /// The code of the refusal in replies.
    pub fn code(self) -> u16
        ensures value { result ≡ pledge_refusal_code self }
    {
        match self {
            Refusal::Debt(fault) => fault.code(),
            Refusal::SeqTaken => 301,
            Refusal::SeqAhead => 302,
            Refusal::Held => 303,
            Refusal::Passed => 304,
            Refusal::Closed => 305,
            Refusal::NotRealisable => 306,
            Refusal::NotSmall => 307,
            Refusal::SecretUsed => 308,
            Refusal::DeclarationsFull => 309,
            Refusal::WrongAmount { .. } => 310,
            Refusal::NoBooking => 311,
            Refusal::BookingDay => 312,
            Refusal::BadWindow => 313,
            Refusal::PeriodOver => 314,
            Refusal::NotLater => 315,
            Refusal::ExtensionsFull => 316,
            Refusal::Memory => 491,
        }
    }

    /// The name of the refusal in replies.
    pub fn name(self) -> &'static str
        ensures value { result.now ≡ pledge_refusal_name self }
    {
        match self {
            Refusal::Debt(fault) => fault.name(),
            Refusal::SeqTaken => "SeqTaken",
            Refusal::SeqAhead => "SeqAhead",
            Refusal::Held => "Held",
            Refusal::Passed => "Passed",
            Refusal::Closed => "Closed",
            Refusal::NotRealisable => "NotRealisable",
            Refusal::NotSmall => "NotSmall",
            Refusal::SecretUsed => "SecretUsed",
            Refusal::DeclarationsFull => "DeclarationsFull",
            Refusal::WrongAmount { .. } => "WrongAmount",
            Refusal::NoBooking => "NoBooking",
            Refusal::BookingDay => "BookingDay",
            Refusal::BadWindow => "BadWindow",
            Refusal::PeriodOver => "PeriodOver",
            Refusal::NotLater => "NotLater",
            Refusal::ExtensionsFull => "ExtensionsFull",
            Refusal::Memory => "Memory",
        }
    }

    /// The sum owed in pence, if the refusal is `WrongAmount`, or `OverOwing` of the debt.
    pub fn total(self) -> Option<u64>
        ensures value { result ≡ refusal_total self }
    {
        match self {
            Refusal::Debt(fault) => fault.total(),
            Refusal::WrongAmount { total } => Some(total),
            _ => None,
        }
    }
}

impl fmt::Display for Refusal {
    ghost use Rattle.pawn_pledge.specs.Refusal.{pledge_refusal_name};
    ghost use Rattle.std.specs.Prelude.{Some};

    ghost output = { λ fault. Some (pledge_refusal_name fault) };

    fn fmt<W: fmt::Write>(&self, f: &mut fmt::Formatter<W>) -> fmt::Result {
        f.write_str(self.name())
    }
}

impl Error for Refusal {}

impl From<DebtFault> for Refusal {
    ghost use Rattle.pawn_pledge.specs.Refusal.{refusal_of};

    ghost from_gives = { λ fault refusal. refusal ≡ refusal_of fault };

    fn from(fault: DebtFault) -> Refusal {
        match fault {
            DebtFault::Memory => Refusal::Memory,
            _ => Refusal::Debt(fault),
        }
    }
}
