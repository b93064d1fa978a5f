//! The faults of a text that was not written completely.
ghost use Rattle.pawn_writing.specs.Fault.{view_fault};
ghost use Rattle.std.specs.Prelude.{◌≡◌};

use pawn_book::KeepError;

/// Why a text was not written completely.
#[derive(Clone, Copy, Debug, PartialEq, Eq)]
pub enum ViewFault {
    /// There is no such book or pledge, or none of the receipts is live. Nothing was written.
    Unknown,
    /// Memory ran out. A prefix of the text was written, possibly none of it.
    Memory,
    /// The keeper's store failed. A prefix of the text was written, possibly none of it.
    Store,
    /// The writer failed. A prefix of the text was written, possibly none of it.
    Write,
}

impl From<KeepError> for ViewFault {
    ghost from_gives = { λ error fault. fault ≡ view_fault error };

    fn from(error: KeepError) -> ViewFault {
        match error {
            KeepError::Memory => ViewFault::Memory,
            KeepError::Store(_) => ViewFault::Store,
        }
    }
}
