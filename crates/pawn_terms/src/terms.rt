//! The terms of an agreement: a rate of interest and two charges for safe keeping, checked against their limits.

ghost use Rattle.pawn_terms.specs.Terms.{IsChecked};
ghost use Rattle.std.specs.Prelude.{◌≡◌, IfOk};

use crate::limits::{MOST_KEEP, MOST_RATE};
use std::error::Error;
use std::fmt;
use std::marker::Model;

/// The reason why three numbers are refused as terms.
#[derive(Clone, Copy, Debug, PartialEq, Eq)]
pub enum TermsFault {
    /// A rate of interest above 20,000 millionths per day.
    RateTooHigh,
    /// A charge for safe keeping above 10,000,000 millionths of a penny per day.
    KeepTooHigh,
    /// A charge for safe keeping that is higher after the end of the period than before it.
    KeepingRate,
}

impl TermsFault {
    ghost use Rattle.pawn_terms.specs.TermsFault.{terms_fault_code, terms_fault_name};

    /// The code of the fault in replies.
    pub fn code(self) -> u16
        ensures value { result ≡ terms_fault_code self }
    {
        match self {
            TermsFault::RateTooHigh => 102,
            TermsFault::KeepTooHigh => 103,
            TermsFault::KeepingRate => 104,
        }
    }

    /// The name of the fault in replies.
    pub fn name(self) -> &'static str
        ensures value { result.now ≡ terms_fault_name self }
    {
        match self {
            TermsFault::RateTooHigh => "RateTooHigh",
            TermsFault::KeepTooHigh => "KeepTooHigh",
            TermsFault::KeepingRate => "KeepingRate",
        }
    }
}

impl fmt::Display for TermsFault {
    ghost use Rattle.pawn_terms.specs.TermsFault.{terms_fault_name};
    ghost use Rattle.std.specs.Prelude.{Some};

    ghost output = { λ fault. Some (terms_fault_name fault) };

    fn fmt<W: fmt::Write>(&self, f: &mut fmt::Formatter<W>) -> fmt::Result {
        f.write_str(self.name())
    }
}

impl Error for TermsFault {}

/// The three numbers of terms, checked or not.
#[derive(Clone, Copy, PartialEq, Eq)]
pub struct Rates {
    /// The rate of interest, in millionths per day.
    pub rate: u64,
    /// The charge for safe keeping up to the end of the period, in millionths of a penny per day.
    pub keep_before: u64,
    /// The charge for safe keeping after the end of the period, in millionths of a penny per day.
    pub keep_after: u64,
}

impl Rates {
    ghost use Rattle.pawn_terms.specs.Terms.{IsChecked};
    ghost use Rattle.pawn_terms.specs.TermsFault.{terms_answer};

    /// The terms of these numbers. If they break a limit, the first fault in the order of `TermsFault`.
    pub fn check(self) -> Result<Terms, TermsFault>
        ensures value { result ≡ terms_answer self }
        ensures checked { IfOk result IsChecked }
    {
        if self.rate > MOST_RATE {
            return Err(TermsFault::RateTooHigh);
        }
        if self.keep_before > MOST_KEEP || self.keep_after > MOST_KEEP {
            return Err(TermsFault::KeepTooHigh);
        }
        if self.keep_after > self.keep_before {
            return Err(TermsFault::KeepingRate);
        }
        Ok(Terms { rates: self })
    }
}

/// Checked terms of an agreement. The rate is at most 20,000 millionths per day, and each charge for safe keeping is at
/// most 10,000,000 millionths of a penny per day. The charge after the end of the period is at most the charge before
/// it. In contracts the value is the three numbers.
#[derive(Clone, Copy)]
pub struct Terms {
    rates: Rates,
}

impl Model for Terms {
    ghost use Rattle.pawn_terms.specs.Terms.{IsChecked};
    ghost use Rattle.pawn_terms.specs.declared.terms.Rates.{Rates};

    ghost Value = { Rates };

    ghost view = { λ t. t.rates };

    ghost invariant = { λ t. IsChecked t.rates };

    ghost inverse = { λ rates. record { rates = rates } };
}

impl Terms {
    ghost use Rattle.pawn_terms.specs.Terms.{IsChecked, rates_of};
    ghost use Rattle.pawn_terms.specs.TermsFault.{terms_answer};

    /// The terms of three numbers: the rate in millionths per day, and the charges for safe keeping up to the end of
    /// the period and after it, in millionths of a penny per day. If they break a limit, the first fault in the order
    /// of `TermsFault`.
    pub fn check(rate: u64, keep_before: u64, keep_after: u64) -> Result<Terms, TermsFault>
        ensures value { result ≡ terms_answer (rates_of rate keep_before keep_after) }
    {
        let rates = Rates {
            rate,
            keep_before,
            keep_after,
        };
        rates.check()
    }

    /// The rate of interest and the two charges for safe keeping.
    pub fn rates(self) -> Rates
        ensures value { result ≡ self }
        ensures checked { IsChecked self }
    {
        self.rates
    }
}
