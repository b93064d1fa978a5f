//! The faults of a check.
ghost use Rattle.pawn_check.specs.Checking.{check_fault_of};
ghost use Rattle.std.specs.Prelude.{◌≡◌};

use pawn_book::{KeepError, StoreFault};

/// Why a check ends without counts.
#[derive(Clone, Copy, Debug, PartialEq, Eq)]
pub enum CheckFault {
    /// A book is not sound, or a stored row cannot be decoded.
    Damaged,
    /// Out of memory.
    Memory,
    /// The store failed.
    Store,
}

/// Why the line of a check is not completely written.
#[derive(Clone, Copy, Debug, PartialEq, Eq)]
pub enum LineFault {
    /// The check ended with this fault; nothing was written.
    Check(CheckFault),
    /// The writer failed. The beginning of the line may have been written.
    Write,
}

impl From<KeepError> for CheckFault {
    ghost from_gives = { λ error fault. fault ≡ check_fault_of error };

    fn from(error: KeepError) -> CheckFault {
        match error {
            KeepError::Memory => CheckFault::Memory,
            KeepError::Store(StoreFault::NoRecord) => CheckFault::Damaged,
            KeepError::Store(StoreFault::Database) => CheckFault::Store,
        }
    }
}
