//! Opens stores as keepers, and closes them.
ghost use Rattle.pawn_book.specs.HostStep.{Host};
ghost use Rattle.pawn_book.specs.Limits.{most_rows};
ghost use Rattle.pawn_opening.specs.Closed.{AreClosedFor, IsLeftUnclosed};
ghost use Rattle.pawn_opening.specs.FilesStand.{IsBlank, OpensFound, RefusesContent, StandsIn};
ghost use Rattle.pawn_opening.specs.Opened.{OpensAs, empty_host};
ghost use Rattle.pawn_opening.specs.Refusing.{IsStoreFault};
ghost use Rattle.pawn_store.specs.Running.{Reopens};
ghost use Rattle.pawn_tables.specs.Keeps.{Keeps};
ghost use Rattle.sqlite.specs.Files.{IsCleanLeft, file_state};
ghost use Rattle.sqlite.specs.Held.{state};
ghost use Rattle.sqlite.specs.State.{HasCleanDisk};
ghost use Rattle.sqlite.specs.Steps.{over_memory};
ghost use Rattle.sqlite_std_file.specs.File.{IsFresh};
ghost use Rattle.sqlite_wal.specs.Files.{image_at};
ghost use Rattle.sqlite_wal.specs.Reads.{AreClean};
ghost use Rattle.std.specs.Prelude.{◌≡◌, ◌≤◌, None, false, true, IfErr, IfOk, IfSome, IsTrue};

use pawn_opening::{OpenFault, close_files, open_memory, open_path};
use pawn_table_keeper::TableKeep;
use sqlite::{FileFrom, FileStore, Files, Leftover, MemStore, Start};
use sqlite_disk::Disk;
use std::alloc::Global;

/// Makes a keeper over a new store in memory, without books. `limit` is the most counted rows that the store may hold,
/// 1 to 10,000,000. The error is `Store` or `Memory`.
pub fn keep_in_memory(alloc: Global, limit: u32) -> Result<TableKeep<MemStore>, OpenFault>
    requires least { 1 ≤ limit }
    requires most { limit ≤ most_rows }
    ensures opens { IfOk result (λ keep. OpensAs (state over_memory keep.conn) (empty_host limit)) }
    ensures refused { IfErr result IsStoreFault }
{
    let conn = open_memory(alloc, limit)?;
    match TableKeep::over(alloc, conn) {
        Ok(keep) => Ok(keep),
        Err(_) => Err(OpenFault::Store),
    }
}

/// Opens the store in the file at a path as a keeper. The file is created if there is none. `start` determines what may
/// be assumed of its bytes.
///
/// An empty store gets the program's tables, and `limit` as its limit on counted rows, 1 to 10,000,000. A store of the
/// program's schema keeps the limit that is stored in it, and gets the indexes that it lacks. The rows are not checked.
/// If the files hold what a crash left of a store that had answered requests, the store stands for the host after all
/// of them, or for that host with one more request done.
///
/// If the store is refused after its files were opened, the rest of the files is returned with the reason.
pub fn keep_at_path<S: Start>(
    rt: &HostRuntime,
    path: &str,
    start: S,
    limit: u32,
) -> Result<TableKeep<FileStore<FileFrom<S>>>, (OpenFault, Option<Leftover<FileFrom<S>>>)>
    requires least { 1 ≤ limit }
    requires most { limit ≤ most_rows }
    ensures blank { IfOk result (λ keep. HasCleanDisk (file_state keep.conn) → IsBlank (image_at S.Start) → OpensAs (file_state keep.conn) (empty_host limit)) }
    ensures stands { IfOk result (λ keep. HasCleanDisk (file_state keep.conn) → (h : Host) → StandsIn (image_at S.Start) h → OpensAs (file_state keep.conn) h) }
    ensures found { IfOk result (λ keep. HasCleanDisk (file_state keep.conn) → OpensFound (image_at S.Start) (file_state keep.conn)) }
    ensures reopens { IfOk result (λ keep. HasCleanDisk (file_state keep.conn) → Reopens (image_at S.Start) (file_state keep.conn)) }
    ensures unopened { IfErr result (λ e. e.1 ≡ None → IsStoreFault e.0) }
    ensures refused { IfErr result (λ e. IfSome e.1
        (λ rest. (files : _) × IsFresh true files.log × IsFresh false files.db × (IsCleanLeft rest → RefusesContent (image_at S.Start) files limit e.0 rest))) }
{
    let conn = open_path(rt, path, start, limit)?;
    match TableKeep::over(rt.alloc(), conn) {
        Ok(keep) => Ok(keep),
        Err(_) => Err((OpenFault::Store, None)),
    }
}

/// Closes the files of a keeper and returns them. Everything that was committed is then in the database file. If
/// closing fails, the store is returned with the reason.
pub fn close_keep<D: Disk + Drop>(
    keep: TableKeep<FileStore<D>>,
) -> Result<Files<D>, (OpenFault, FileStore<D>)>
    ensures usable { IfOk result (λ files. IsTrue (D.Disk.is_usable files.log) × IsTrue (D.Disk.is_usable files.db)) }
    ensures kept { IfOk result (λ files. AreClean D.Disk files.log files.db → (h : Host) → Keeps (file_state keep.conn) h → AreClosedFor D.Disk files h) }
    ensures refused { IfErr result (λ e. IsLeftUnclosed keep.conn e.0 e.1) }
{
    match close_files(keep.into_connection()) {
        Ok(files) => Ok(files),
        Err(refused) => Err(refused),
    }
}
