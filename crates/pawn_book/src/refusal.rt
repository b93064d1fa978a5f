//! `Refusal`, the reasons why a request is refused.

ghost use Rattle.pawn_book.specs.Refusals.{book_refusal_code, book_refusal_name, reported_total};
ghost use Rattle.std.specs.Prelude.{◌≡◌};

use pawn_pledge::Refusal as PledgeRefusal;
use pawn_terms::TermsFault;

/// The reason why a request is refused.
#[derive(Clone, Copy, PartialEq, Eq)]
pub enum Refusal {
    /// A refusal by the rules of a pledge.
    Pledge(PledgeRefusal),
    /// A refusal by the limits of terms.
    Terms(TermsFault),
    /// There is no such book, or the key is not the book's.
    NoSuchBook,
    /// No receipt that was presented is live.
    NoSuchReceipt,
    /// The book has no pledge of this number.
    NoSuchPledge,
    /// There is such a book already, with another key, name or capacity.
    BookTaken,
    /// The book has no terms yet.
    NoTerms,
    /// The version is not the next one, and the book does not have these terms under it.
    TermsSeq,
    /// A pledge of the book has this reference already, with another opening.
    RefTaken,
    /// The book has confirmed as many bookings of the window as its capacity allows.
    WindowFull,
    /// The book has terms or pledges, or another import has filled it.
    BookNotEmpty,
    /// The key is not the operator's.
    NotOperator,
    /// The book has 99 versions of terms.
    TermsFull,
    /// The book has 1,000,000 pledges.
    PledgesFull,
    /// The rows would be above the limit of the host.
    Full,
    /// Out of memory.
    Memory,
    /// The store failed.
    Store,
}

impl Refusal {
    /// The code of the refusal in replies.
    pub fn code(self) -> u16
        ensures code { result ≡ book_refusal_code self }
    {
        match self {
            Refusal::Pledge(refusal) => refusal.code(),
            Refusal::Terms(fault) => fault.code(),
            Refusal::NoSuchBook => 401,
            Refusal::NoSuchReceipt => 402,
            Refusal::NoSuchPledge => 403,
            Refusal::BookTaken => 404,
            Refusal::NoTerms => 405,
            Refusal::TermsSeq => 406,
            Refusal::RefTaken => 407,
            Refusal::WindowFull => 408,
            Refusal::BookNotEmpty => 409,
            Refusal::NotOperator => 410,
            Refusal::TermsFull => 411,
            Refusal::PledgesFull => 412,
            Refusal::Full => 490,
            Refusal::Memory => 491,
            Refusal::Store => 492,
        }
    }

    /// The name of the refusal in replies.
    pub fn name(self) -> &'static str
        ensures name { result.now ≡ book_refusal_name self }
    {
        match self {
            Refusal::Pledge(refusal) => refusal.name(),
            Refusal::Terms(fault) => fault.name(),
            Refusal::NoSuchBook => "NoSuchBook",
            Refusal::NoSuchReceipt => "NoSuchReceipt",
            Refusal::NoSuchPledge => "NoSuchPledge",
            Refusal::BookTaken => "BookTaken",
            Refusal::NoTerms => "NoTerms",
            Refusal::TermsSeq => "TermsSeq",
            Refusal::RefTaken => "RefTaken",
            Refusal::WindowFull => "WindowFull",
            Refusal::BookNotEmpty => "BookNotEmpty",
            Refusal::NotOperator => "NotOperator",
            Refusal::TermsFull => "TermsFull",
            Refusal::PledgesFull => "PledgesFull",
            Refusal::Full => "Full",
            Refusal::Memory => "Memory",
            Refusal::Store => "Store",
        }
    }

    /// The sum owed in pence, if the refusal reports it.
    pub fn total(self) -> Option<u64>
        ensures total { result ≡ reported_total self }
    {
        match self {
            Refusal::Pledge(refusal) => refusal.total(),
            _ => None,
        }
    }
}
