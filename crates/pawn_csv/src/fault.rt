//! The faults of a text that is not a book.
ghost use Rattle.pawn_csv.specs.Fault.{cause_code, cause_name};
ghost use Rattle.std.specs.Prelude.{◌≡◌};

use std::error::Error;
use std::fmt;

/// Why a text is not a book.
#[derive(Clone, Copy, Debug, PartialEq, Eq)]
pub enum Cause {
    /// A record has not as many columns as the header has.
    Csv,
    /// The first record is not the header.
    Columns,
    /// A column is malformed for its kind of row, or a text of version 1 has an extension.
    BadField,
    /// A row is out of order, or a row is missing at the end.
    Order,
    /// The rows are in order, but they are not replayable.
    NotReplayable,
    /// A count in the first row, or the length of a pledge's list, exceeds its limit.
    TooMany,
    /// The reader failed.
    Read,
    /// Memory ran out.
    Memory,
}

/// Why a text is not a book, and at which row. The header is row 1, and the end of the text is the row after the last
/// one.
#[derive(Clone, Copy, Debug, PartialEq, Eq)]
pub struct CsvFault {
    /// What is wrong with the text.
    pub cause: Cause,
    /// The row at which it was found.
    pub row: u64,
}

impl CsvFault {
    /// Returns the fault's code in replies.
    pub fn code(self) -> u16
        ensures value { result ≡ cause_code self.cause }
    {
        match self.cause {
            Cause::Csv => 601,
            Cause::Columns => 602,
            Cause::BadField => 603,
            Cause::Order => 604,
            Cause::NotReplayable => 605,
            Cause::TooMany => 606,
            Cause::Read => 607,
            Cause::Memory => 491,
        }
    }

    /// Returns the fault's name in replies.
    pub fn name(self) -> &'static str
        ensures value { result.now ≡ cause_name self.cause }
    {
        match self.cause {
            Cause::Csv => "Csv",
            Cause::Columns => "Columns",
            Cause::BadField => "BadField",
            Cause::Order => "Order",
            Cause::NotReplayable => "NotReplayable",
            Cause::TooMany => "TooMany",
            Cause::Read => "Read",
            Cause::Memory => "Memory",
        }
    }
}

impl fmt::Display for CsvFault {
    ghost use Rattle.pawn_csv.specs.Fault.{cause_name};
    ghost use Rattle.std.specs.Prelude.{Some};

    ghost output = { λ fault. Some (cause_name fault.cause) };

    fn fmt<W: fmt::Write>(&self, f: &mut fmt::Formatter<W>) -> fmt::Result {
        f.write_str(self.name())
    }
}

impl Error for CsvFault {}
