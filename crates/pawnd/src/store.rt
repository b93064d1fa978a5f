//! Opens and closes the store that the command line names.
ghost use Rattle.pawn_opening.specs.Common.{HasCleanDisk, image_at};
ghost use Rattle.pawn_opening.specs.FilesStand.{IsBlank};
ghost use Rattle.pawn_opening.specs.Opened.{OpensAs, empty_host};
ghost use Rattle.sqlite.specs.Files.{file_state};
ghost use Rattle.sqlite.specs.Held.{state};
ghost use Rattle.sqlite.specs.Steps.{over_memory};
ghost use Rattle.std.specs.Prelude.{◌≡◌, ◌↔◌, Err, IfErr, IfOk, IsTrue, codes};

use crate::fault::Fault;
use crate::stop::Stop;
use pawn_opening::fold_path;
use pawn_store::{
    FileFrom, FileStore, MemStore, Start, TableKeep, close_keep, keep_at_path, keep_in_memory,
};
use sqlite_disk::Wary;
use std::fs;

/// The limit on counted rows of a store that the program creates.
const ROWS: u32 = 5_000_000;

/// The size of a page of the database in bytes. Each change writes some pages to the log.
const PAGE: u64 = 4_096;

/// A keeper over a file. Nothing is assumed of the file's first bytes, or of what a crash leaves of an unfinished
/// write.
pub type FileKeep = TableKeep<FileStore<FileFrom<Wary>>>;

/// Returns whether the command line names `:memory:`, a store in memory that ends with the program.
pub fn is_memory(database: &str) -> bool
    ensures named { IsTrue result ↔ (database.now ≡ codes ":memory:") }
{
    database == ":memory:"
}

/// Makes a keeper over a new store in memory.
pub fn memory_keep(rt: &HostRuntime) -> Result<TableKeep<MemStore>, Stop>
    ensures opens { IfOk result (λ keep. OpensAs (state over_memory keep.conn) (empty_host 5000000)) }
{
    match keep_in_memory(rt.alloc(), ROWS) {
        Ok(keep) => Ok(keep),
        Err(why) => Err(Stop::Fault(Fault::Opening(why))),
    }
}

/// Opens a keeper over the store in the file at a path. The file is created if there is none. A new store may hold
/// 5,000,000 rows.
pub fn file_keep<S: Start>(
    rt: &HostRuntime,
    path: &str,
    start: S,
) -> Result<TableKeep<FileStore<FileFrom<S>>>, Stop>
    ensures blank { IfOk result
        (λ keep. HasCleanDisk (file_state keep.conn) → IsBlank (image_at S.Start) → OpensAs (file_state keep.conn) (empty_host 5000000)) }
{
    match keep_at_path(rt, path, start, ROWS) {
        Ok(keep) => Ok(keep),
        Err((why, _)) => Err(Stop::Fault(Fault::Opening(why))),
    }
}

/// Returns the length of the file at a path, or 0 if it can't be determined.
fn length_at(rt: &HostRuntime, path: &str) -> u64 {
    match fs::metadata(rt, path) {
        Ok(found) => found.len(),
        Err(_) => 0,
    }
}

/// Returns whether the log of a store holds at least one page, which may be nowhere else. The log is next to the file
/// to which the path leads, even if the path is a symbolic link.
fn hangs_on_its_log(rt: &HostRuntime, path: &str) -> bool {
    let Ok(database) = fs::canonicalize(rt, path) else {
        return false;
    };
    match format!(in rt.alloc(); "{}-wal", database.as_str()) {
        Ok(log) => length_at(rt, log.as_str()) > PAGE,
        Err(_) => false,
    }
}

/// Opens a keeper over the file at a path for a long run, as `file_keep` does. If the program was killed before, some
/// changes may be only in the store's log. They are copied into the file first, so that nothing depends on the log. If
/// that fails, they stay in the log.
pub fn folded_keep(rt: &HostRuntime, path: &str) -> Result<FileKeep, Stop> {
    if hangs_on_its_log(rt, path) {
        let _ = fold_path(rt, path, Wary, ROWS);
    }
    file_keep(rt, path, Wary)
}

/// Closes the file of a keeper; everything that was committed is then in the database file.
pub fn close(keep: FileKeep) -> Result<(), Stop> {
    match close_keep(keep) {
        Ok(_) => Ok(()),
        Err((why, _)) => Err(Stop::Fault(Fault::Opening(why))),
    }
}

/// The result of the work with a store if it is an error, otherwise the result of closing the store after it.
pub fn first_error(work: Result<(), Stop>, closing: Result<(), Stop>) -> Result<(), Stop>
    ensures first { IfErr work (λ stop. result ≡ Err stop) }
    ensures last { IfOk work (λ _. result ≡ closing) }
{
    match work {
        Ok(()) => closing,
        Err(stop) => Err(stop),
    }
}
