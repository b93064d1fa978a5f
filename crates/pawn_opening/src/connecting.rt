//! Connects to a database file without preparing it as a store.
ghost use Rattle.pawn_opening.specs.Common.{image_at, Database, HasCleanDisk};
ghost use Rattle.pawn_opening.specs.FilesStand.{HoldsIn};
ghost use Rattle.pawn_opening.specs.Refusing.{IsStoreFault};
ghost use Rattle.sqlite.specs.Files.{file_state};
ghost use Rattle.std.specs.Prelude.{◌≡◌, false, IfErr, IfOk, IsTrue};

use crate::fault::{OpenFault, opening_fault};
use crate::finding::{files_at, options};
use sqlite::{Connection, FileFrom, FileStore, Start};

/// Connects to the database in the file at a path, for the migration of an older store or for reading any other one. No
/// table is made, and the schema is not checked. If there is no file, an empty one is made. `start` states what may be
/// assumed of the file's bytes. The error is `Store` or `Memory`.
pub fn connect_path<S: Start>(
    rt: &HostRuntime,
    path: &str,
    start: S,
) -> Result<Connection<FileStore<FileFrom<S>>>, OpenFault>
    ensures holds { IfOk result (λ conn. HasCleanDisk (file_state conn) → (db : Database) → HoldsIn (image_at S.Start) db → (file_state conn).now ≡ db) }
    ensures usable { IfOk result (λ conn. HasCleanDisk (file_state conn) → IsTrue (file_state conn).is_open) }
    ensures mode { IfOk result (λ conn. conn.in_transaction ≡ false) }
    ensures refused { IfErr result IsStoreFault }
{
    let options = options(rt)?;
    let files = files_at(rt, path, start)?;
    match Connection::open_files(rt.alloc(), files, options) {
        Ok(conn) => Ok(conn),
        Err((error, _)) => Err(opening_fault(error)),
    }
}
