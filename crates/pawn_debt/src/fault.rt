//! `DebtFault`, the reasons why a call on a debt is refused.

ghost use Rattle.std.specs.Prelude.{◌≡◌};

use std::error::Error;
use std::fmt;

/// The reason why a call on a debt is refused.
#[derive(Clone, Copy, Debug, PartialEq, Eq)]
pub enum DebtFault {
    /// A sum of 0, or above 100,000,000 pence.
    BadAmount,
    /// A drawing on a fixed sum.
    FixedSum,
    /// A drawing that takes the principal above the limit.
    OverLimit,
    /// A repayment above the sum owed; `total` is the sum owed, in pence.
    OverOwing { total: u64 },
    /// A day before the day of the last entry, or before the day taken.
    EarlierDay,
    /// The debt has 9,999 entries, the most that it may have.
    EntriesFull,
    /// Out of memory for a new entry.
    Memory,
}

impl DebtFault {
    ghost use Rattle.pawn_debt.specs.DebtFault.{debt_fault_code, debt_fault_name, fault_total};

    /// The code of the fault in replies.
    pub fn code(self) -> u16
        ensures value { result ≡ debt_fault_code self }
    {
        match self {
            DebtFault::BadAmount => 201,
            DebtFault::FixedSum => 202,
            DebtFault::OverLimit => 203,
            DebtFault::OverOwing { .. } => 204,
            DebtFault::EarlierDay => 205,
            DebtFault::EntriesFull => 206,
            DebtFault::Memory => 491,
        }
    }

    /// The name of the fault in replies.
    pub fn name(self) -> &'static str
        ensures value { result.now ≡ debt_fault_name self }
    {
        match self {
            DebtFault::BadAmount => "BadAmount",
            DebtFault::FixedSum => "FixedSum",
            DebtFault::OverLimit => "OverLimit",
            DebtFault::OverOwing { .. } => "OverOwing",
            DebtFault::EarlierDay => "EarlierDay",
            DebtFault::EntriesFull => "EntriesFull",
            DebtFault::Memory => "Memory",
        }
    }

    /// The sum owed in pence, if the fault is `OverOwing`.
    pub fn total(self) -> Option<u64>
        ensures value { result ≡ fault_total self }
    {
        match self {
            DebtFault::OverOwing { total } => Some(total),
            _ => None,
        }
    }
}

impl fmt::Display for DebtFault {
    ghost use Rattle.pawn_debt.specs.DebtFault.{debt_fault_name};
    ghost use Rattle.std.specs.Prelude.{Some};

    ghost output = { λ fault. Some (debt_fault_name fault) };

    fn fmt<W: fmt::Write>(&self, f: &mut fmt::Formatter<W>) -> fmt::Result {
        f.write_str(self.name())
    }
}

impl Error for DebtFault {}
