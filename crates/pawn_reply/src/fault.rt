//! The faults of bytes that are not a valid request.
ghost use Rattle.pawn_reply.specs.Fault.{wire_fault_code, detail_of, wire_fault_name, text_fault, wire_fault};
ghost use Rattle.pawn_reply.specs.declared.fault.WireFault.TheVariants.{Memory};
ghost use Rattle.std.specs.Prelude.{◌≡◌};

use crate::detail::Detail;
use pawn_csv::{Cause, CsvFault};
use std::alloc::{AllocError, AllocFailed};
use std::error::Error;
use std::fmt;

/// Why a head can't begin a request, in the order in which the faults are checked.
#[derive(Clone, Copy)]
pub enum HeadFault {
    /// The bytes don't begin with a head: they violate the grammar or exceed a limit.
    BadHead,
    /// The head has a `Transfer-Encoding` field.
    Transfer,
    /// Two `Content-Length` fields, or one that is not 1 to 19 digits.
    BadLength,
    /// The body is longer than the limit.
    BodyTooLong,
}

/// Why bytes are not a valid request. The head and the length of the body are checked first, then the target, the
/// method, the key or the receipts, and finally the body. Of the faults of receipts, `NoReceipt` is checked first, then
/// `TooManyReceipts`, then `BadReceipt`.
#[derive(Clone, Copy, Debug, PartialEq, Eq)]
pub enum WireFault {
    /// The bytes don't begin with a head: they violate the grammar or exceed a limit.
    BadHead,
    /// The head has a `Transfer-Encoding` field.
    Transfer,
    /// Two `Content-Length` fields, one that is not 1 to 19 digits, or a body whose length differs from the field.
    BadLength,
    /// The body is longer than the limit.
    BodyTooLong,
    /// The service has no such target, or a number or a day in it is malformed or out of range.
    NoRoute,
    /// The target exists, but it takes another method.
    WrongMethod,
    /// The body is not JSON, or it lacks a member that the request needs, or a member is malformed.
    BadBody,
    /// There is not exactly one key, or it is malformed.
    BadKey,
    /// A receipt is malformed.
    BadReceipt,
    /// More receipts are presented than the request takes.
    TooManyReceipts,
    /// No receipt is presented.
    NoReceipt,
    /// The body is not the text of a book.
    Csv(CsvFault),
    /// Memory ran out.
    Memory,
}

impl WireFault {
    /// Returns the fault's code in replies.
    pub fn code(self) -> u16
        ensures value { result ≡ wire_fault_code self }
    {
        match self {
            WireFault::BadHead => 701,
            WireFault::Transfer => 703,
            WireFault::BadLength => 704,
            WireFault::BodyTooLong => 705,
            WireFault::NoRoute => 706,
            WireFault::WrongMethod => 707,
            WireFault::BadBody => 708,
            WireFault::BadKey => 709,
            WireFault::BadReceipt => 710,
            WireFault::TooManyReceipts => 711,
            WireFault::NoReceipt => 712,
            WireFault::Csv(fault) => fault.code(),
            WireFault::Memory => 491,
        }
    }

    /// Returns what replies state besides the fault's code and name: the row, for a fault of a text; otherwise nothing.
    pub fn detail(self) -> Option<Detail>
        ensures value { result ≡ detail_of self }
    {
        match self {
            WireFault::Csv(fault) => Some(Detail::Row(fault.row)),
            _ => None,
        }
    }

    /// Returns the fault's name in replies.
    pub fn name(self) -> &'static str
        ensures value { result.now ≡ wire_fault_name self }
    {
        match self {
            WireFault::BadHead => "BadHead",
            WireFault::Transfer => "Transfer",
            WireFault::BadLength => "BadLength",
            WireFault::BodyTooLong => "BodyTooLong",
            WireFault::NoRoute => "NoRoute",
            WireFault::WrongMethod => "WrongMethod",
            WireFault::BadBody => "BadBody",
            WireFault::BadKey => "BadKey",
            WireFault::BadReceipt => "BadReceipt",
            WireFault::TooManyReceipts => "TooManyReceipts",
            WireFault::NoReceipt => "NoReceipt",
            WireFault::Csv(fault) => fault.name(),
            WireFault::Memory => "Memory",
        }
    }
}

impl From<CsvFault> for WireFault {
    ghost from_gives = { λ csv fault. fault ≡ text_fault csv };

    fn from(fault: CsvFault) -> WireFault {
        match fault.cause {
            Cause::Memory | Cause::Read => WireFault::Memory,
            Cause::Csv
            | Cause::Columns
            | Cause::BadField
            | Cause::Order
            | Cause::NotReplayable
            | Cause::TooMany => WireFault::Csv(fault),
        }
    }
}

impl From<HeadFault> for WireFault {
    ghost from_gives = { λ head fault. fault ≡ wire_fault head };

    fn from(fault: HeadFault) -> WireFault {
        match fault {
            HeadFault::BadHead => WireFault::BadHead,
            HeadFault::Transfer => WireFault::Transfer,
            HeadFault::BadLength => WireFault::BadLength,
            HeadFault::BodyTooLong => WireFault::BodyTooLong,
        }
    }
}

impl From<AllocError> for WireFault {
    ghost from_gives = { λ _ fault. fault ≡ Memory };

    fn from(_error: AllocError) -> WireFault {
        WireFault::Memory
    }
}

impl<T: Drop> From<AllocFailed<T>> for WireFault {
    ghost from_gives = { λ _ fault. fault ≡ Memory };

    fn from(_failed: AllocFailed<T>) -> WireFault {
        WireFault::Memory
    }
}

impl fmt::Display for WireFault {
    ghost use Rattle.pawn_reply.specs.Fault.{wire_fault_name};
    ghost use Rattle.std.specs.Prelude.{Some};

    ghost output = { λ fault. Some (wire_fault_name fault) };

    fn fmt<W: fmt::Write>(&self, f: &mut fmt::Formatter<W>) -> fmt::Result {
        f.write_str(self.name())
    }
}

impl Error for WireFault {}
