//! Opens a store in memory, in two files or at a path, and closes it.
ghost use Rattle.pawn_opening.specs.Closed.{AreClosedFor, HasCommitted, IsLeftUnclosed};
ghost use Rattle.pawn_opening.specs.Common.{image_at, state, HasCleanDisk, Host, most_rows};
ghost use Rattle.pawn_opening.specs.FilesStand.{IsBlank, OpensFound, RefusesFiles, RefusesContent, StandsIn};
ghost use Rattle.pawn_opening.specs.Opened.{OpensAs, empty_host};
ghost use Rattle.pawn_opening.specs.Refusing.{IsStoreFault};
ghost use Rattle.sqlite.specs.Files.{IsCleanLeft, file_state, image_of};
ghost use Rattle.sqlite.specs.Steps.{over_memory};
ghost use Rattle.sqlite_std_file.specs.File.{IsFresh};
ghost use Rattle.sqlite_wal.specs.Reads.{AreClean};
ghost use Rattle.std.specs.Prelude.{◌≡◌, ◌≤◌, None, false, true, IfErr, IfOk, IfSome, IsTrue};

use crate::fault::{OpenFault, opening_fault};
use crate::finding::{files_at, options};
use crate::preparing::prepare;
use sqlite::{Connection, FileFrom, FileStore, Files, Leftover, MemStore, Options, Start};
use sqlite_disk::Disk;
use std::alloc::Global;

/// Makes a new store in memory, without books. `limit` is the largest number of counted rows that it may have, 1 to
/// 10,000,000. The error is `Store` or `Memory`.
pub fn open_memory(alloc: Global, limit: u32) -> Result<Connection<MemStore>, OpenFault>
    requires least { 1 ≤ limit }
    requires most { limit ≤ most_rows }
    ensures opens { IfOk result (λ conn. OpensAs (state over_memory conn) (empty_host limit)) }
    ensures refused { IfErr result IsStoreFault }
{
    let Ok(mut conn) = Connection::open_in_memory(alloc) else {
        return Err(OpenFault::Memory);
    };
    match prepare(&mut conn, limit) {
        Ok(()) => Ok(conn),
        Err(why) => Err(why),
    }
}

/// Opens the store in two files, a log and a database. An empty store gets the program's tables, and `limit` as its
/// limit on counted rows, 1 to 10,000,000. A store that notes the program's schema keeps its stored limit, and gets the
/// indexes that it lacks; its rows are not checked.
///
/// # Errors
/// Those of `prepare`, and `Store` or `Memory` if the files cannot be opened as a database. What is left of the files
/// comes with the reason.
pub fn open_files<D: Disk + Drop>(
    alloc: Global,
    files: Files<D>,
    options: Options,
    limit: u32,
) -> Result<Connection<FileStore<D>>, (OpenFault, Leftover<D>)>
    requires log { IsTrue (D.Disk.is_usable files.log) }
    requires db { IsTrue (D.Disk.is_usable files.db) }
    requires least { 1 ≤ limit }
    requires most { limit ≤ most_rows }
    ensures blank { IfOk result (λ conn. HasCleanDisk (file_state conn) → IsBlank (image_of D.Disk files) → OpensAs (file_state conn) (empty_host limit)) }
    ensures stands { IfOk result (λ conn. HasCleanDisk (file_state conn) → (h : Host) → StandsIn (image_of D.Disk files) h → OpensAs (file_state conn) h) }
    ensures found { IfOk result (λ conn. HasCleanDisk (file_state conn) → OpensFound (image_of D.Disk files) (file_state conn)) }
    ensures mode { IfOk result (λ conn. conn.in_transaction ≡ false) }
    ensures refused { IfErr result (λ e. IsCleanLeft e.1 → RefusesFiles files limit e.0 e.1) }
{
    let mut conn = match Connection::open_files(alloc, files, options) {
        Ok(conn) => conn,
        Err((error, left)) => return Err((opening_fault(error), left)),
    };
    match prepare(&mut conn, limit) {
        Ok(()) => Ok(conn),
        Err(why) => Err((why, Leftover::Store(conn.into_store()))),
    }
}

/// Opens the store in the file at a path, and makes the file if there is none. `start` states what may be assumed of
/// the file's bytes. An empty store gets the program's tables, and `limit` as its limit on counted rows, 1 to
/// 10,000,000. A store that notes the program's schema keeps its stored limit, and gets the indexes that it lacks; its
/// rows are not checked.
///
/// # Errors
/// Those of `open_files`. What is left of the files comes with the reason if they had been opened.
pub fn open_path<S: Start>(
    rt: &HostRuntime,
    path: &str,
    start: S,
    limit: u32,
) -> Result<Connection<FileStore<FileFrom<S>>>, (OpenFault, Option<Leftover<FileFrom<S>>>)>
    requires least { 1 ≤ limit }
    requires most { limit ≤ most_rows }
    ensures blank { IfOk result (λ conn. HasCleanDisk (file_state conn) → IsBlank (image_at S.Start) → OpensAs (file_state conn) (empty_host limit)) }
    ensures stands { IfOk result (λ conn. HasCleanDisk (file_state conn) → (h : Host) → StandsIn (image_at S.Start) h → OpensAs (file_state conn) h) }
    ensures found { IfOk result (λ conn. HasCleanDisk (file_state conn) → OpensFound (image_at S.Start) (file_state conn)) }
    ensures mode { IfOk result (λ conn. conn.in_transaction ≡ false) }
    ensures unopened { IfErr result (λ e. e.1 ≡ None → IsStoreFault e.0) }
    ensures refused { IfErr result (λ e. IfSome e.1
        (λ rest. (files : _) × IsFresh true files.log × IsFresh false files.db × (IsCleanLeft rest → RefusesContent (image_at S.Start) files limit e.0 rest))) }
{
    let options = match options(rt) {
        Ok(options) => options,
        Err(why) => return Err((why, None)),
    };
    let files = match files_at(rt, path, start) {
        Ok(files) => files,
        Err(why) => return Err((why, None)),
    };
    match open_files(rt.alloc(), files, options, limit) {
        Ok(conn) => Ok(conn),
        Err((why, left)) => Err((why, Some(left))),
    }
}

/// Closes the store and returns its files. Everything that was committed is then in the database file, and an open
/// transaction is rolled back. If closing fails, the error has the reason, `Store` or `Memory`, and the store.
pub fn close_files<D: Disk + Drop>(
    conn: Connection<FileStore<D>>,
) -> Result<Files<D>, (OpenFault, FileStore<D>)>
    ensures usable { IfOk result (λ files. IsTrue (D.Disk.is_usable files.log) × IsTrue (D.Disk.is_usable files.db)) }
    ensures clean { IfOk result (λ files. AreClean D.Disk files.log files.db → HasCleanDisk (file_state conn)) }
    ensures kept { IfOk result (λ files. AreClean D.Disk files.log files.db → (h : Host) → HasCommitted (file_state conn) h → AreClosedFor D.Disk files h) }
    ensures refused { IfErr result (λ e. IsLeftUnclosed conn e.0 e.1) }
{
    match conn.close_files() {
        Ok(files) => Ok(files),
        Err((error, store)) => Err((opening_fault(error), store)),
    }
}
