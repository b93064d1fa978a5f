//! The faults of opening a store.
ghost use Rattle.pawn_opening.specs.Refusing.{IsStoreFault};
ghost use Rattle.sqlite.specs.declared.error.ErrorCode.TheVariants.{OutOfMemory};
ghost use Rattle.std.specs.Prelude.{◌≡◌};
ghost use Rattle.sqlite.specs.declared.error.Error.TheVariants as SqlError;
ghost use Rattle.pawn_opening.specs.declared.fault.OpenFault.TheVariants as Fault;

use sqlite::{Error, ErrorCode};
use std::fmt;

/// Why a store cannot be opened.
#[derive(Clone, Copy)]
pub enum OpenFault {
    /// The store notes no schema, or a newer one than the program's: another program made it, or a later version of
    /// this one.
    NotOurs,
    /// The store notes this older schema, 1 or 2. It has to be migrated first.
    OldSchema(u32),
    /// The database failed, or refused the request.
    Store,
    /// Out of memory.
    Memory,
}

impl fmt::Display for OpenFault {
    fn fmt<W: fmt::Write>(&self, f: &mut fmt::Formatter<W>) -> fmt::Result {
        f.write_str(match self {
            OpenFault::NotOurs => "NotOurs",
            OpenFault::OldSchema(_) => "OldSchema",
            OpenFault::Store => "Store",
            OpenFault::Memory => "Memory",
        })
    }
}

/// A database's error as a fault of opening: `Memory` if out of memory, otherwise `Store`.
pub(crate) fn opening_fault(error: Error) -> OpenFault
    ensures memory { result ≡ Fault.Memory → error ≡ SqlError.SqliteFailure OutOfMemory }
    ensures out_of_memory { error ≡ SqlError.SqliteFailure OutOfMemory → result ≡ Fault.Memory }
    ensures store { IsStoreFault result }
{
    match error {
        Error::SqliteFailure(ErrorCode::OutOfMemory) => OpenFault::Memory,
        _ => OpenFault::Store,
    }
}
