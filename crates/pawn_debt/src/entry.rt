//! Kinds of credit, and entries: drawings and repayments.

ghost use Rattle.pawn_debt.specs.Due.{credit_of, first_principal};
ghost use Rattle.pawn_debt.specs.Words.{sort_text};
ghost use Rattle.std.specs.Prelude.{find, ◌==◌, ◌≡◌, ◌≤◌};

use pawn_base::Rows;
use pawn_terms::Day;

/// The kind of a credit, with its sum or limit in pence.
#[derive(Clone, Copy, PartialEq, Eq)]
pub enum Kind {
    /// A fixed sum, which was lent on the day taken.
    Fixed(u64),
    /// A running account, with the limit of its principal.
    Running(u64),
}

impl Kind {
    /// The fixed sum, or the limit of the running account, in pence.
    pub fn credit(self) -> u64
        ensures value { result ≡ credit_of self }
    {
        match self {
            Kind::Fixed(sum) => sum,
            Kind::Running(limit) => limit,
        }
    }

    /// The principal on the day taken: the fixed sum, or 0 on a running account.
    pub(crate) fn first_principal(self) -> u64
        ensures value { result ≡ first_principal self }
        ensures small { result ≤ credit_of self }
    {
        match self {
            Kind::Fixed(sum) => sum,
            Kind::Running(_) => 0,
        }
    }
}

/// Whether an entry is a drawing or a repayment.
#[derive(Clone, Copy, PartialEq, Eq)]
pub enum Sort {
    Draw,
    Repay,
}

impl Sort {
    /// The word for the kind of entry in replies, statements and CSV: `draw` or `repay`.
    pub fn word(self) -> &'static str
        ensures word { result.now ≡ sort_text self }
    {
        match self {
            Sort::Draw => "draw",
            Sort::Repay => "repay",
        }
    }
}

/// A drawing or a repayment: its number among the debt's entries, from 1, its day, and its pence.
#[derive(Clone, Copy, PartialEq, Eq)]
pub struct Entry {
    pub seq: u64,
    pub day: Day,
    pub sort: Sort,
    pub pence: u64,
}

/// The entries of a debt, in order.
pub type Entries = Rows<Entry>;

/// The first entry with this number, if there is one.
pub(crate) fn find_entry(entries: &[Entry], seq: u64) -> Option<Entry>
    ensures value { result ≡ find (λ e. e.seq == seq) entries.now }
{
    for e in entries {
        if e.seq == seq {
            return Some(*e);
        }
    }
    None
}
