//! The faults of a migration.
ghost use Rattle.pawn_move.specs.Migrating.{IsFailure, fault_of_opening, move_fault_of};
ghost use Rattle.std.specs.Prelude.{◌≡◌};

use pawn_book::{KeepError, StoreFault};
use pawn_opening::OpenFault;

/// Why a store cannot be migrated to the program's schema.
#[derive(Clone, Copy, Debug, PartialEq, Eq)]
pub enum MoveFault {
    /// The store is empty, or notes no schema or the number 0: another program may have made it.
    NotOurs,
    /// The store notes a newer schema than the program's.
    NewerSchema,
    /// A stored row cannot be decoded, or no commands can produce the terms, the sum, the days or the entries of a
    /// pledge.
    Damaged,
    /// The database failed, or refused the request.
    Store,
    /// Out of memory.
    Memory,
}

impl MoveFault {
    /// A fault of opening, of reading the schema or of closing as a fault of a migration: `Memory` stays `Memory`, and
    /// every other fault becomes `Store`.
    pub fn of_opening(why: OpenFault) -> MoveFault
        ensures failure { IsFailure result }
        ensures value { result ≡ fault_of_opening why }
    {
        match why {
            OpenFault::Memory => MoveFault::Memory,
            _ => MoveFault::Store,
        }
    }
}

/// A keeper's error as a fault of a migration: `NoRecord` becomes `Damaged`, `Database` becomes `Store`.
pub(crate) fn unmoved(error: KeepError) -> MoveFault
    ensures value { result ≡ move_fault_of error }
{
    match error {
        KeepError::Memory => MoveFault::Memory,
        KeepError::Store(StoreFault::NoRecord) => MoveFault::Damaged,
        KeepError::Store(StoreFault::Database) => MoveFault::Store,
    }
}
