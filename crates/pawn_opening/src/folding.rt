//! Folds a store: moves what its log has into its database file.
ghost use Rattle.pawn_opening.specs.Closed.{AreClosedFor};
ghost use Rattle.pawn_opening.specs.Common.{Host, most_rows};
ghost use Rattle.pawn_opening.specs.FilesStand.{StandsIn};
ghost use Rattle.sqlite.specs.Files.{image_of};
ghost use Rattle.sqlite_wal.specs.Reads.{AreClean};
ghost use Rattle.std.specs.Prelude.{◌≤◌, IfOk, IsTrue};

use crate::fault::OpenFault;
use crate::finding::{files_at, options};
use crate::opening::{close_files, open_files};
use sqlite::{Files, Leftover, Options, Start};
use sqlite_disk::Disk;
use std::alloc::Global;

/// Moves everything that a store's log has into its database file, and returns both files. The database file alone then
/// stands for the store's host. The store is opened and closed for this; `limit` is that of `open_files`. The error has
/// the reason, and what is left of the files.
pub fn fold_files<D: Disk + Drop>(
    alloc: Global,
    files: Files<D>,
    options: Options,
    limit: u32,
) -> Result<Files<D>, (OpenFault, Leftover<D>)>
    requires log { IsTrue (D.Disk.is_usable files.log) }
    requires db { IsTrue (D.Disk.is_usable files.db) }
    requires least { 1 ≤ limit }
    requires most { limit ≤ most_rows }
    ensures folded { IfOk result (λ after. AreClean D.Disk after.log after.db → (h : Host) → StandsIn (image_of D.Disk files) h → AreClosedFor D.Disk after h) }
{
    match open_files(alloc, files, options, limit) {
        Ok(conn) => match close_files(conn) {
            Ok(after) => Ok(after),
            Err((why, store)) => Err((why, Leftover::Store(store))),
        },
        Err(refused) => Err(refused),
    }
}

/// Folds the store at a path, as `fold_files` does. `start` states what may be assumed of the files' bytes. No contract
/// states the effect.
pub fn fold_path<S: Start>(
    rt: &HostRuntime,
    path: &str,
    start: S,
    limit: u32,
) -> Result<(), OpenFault>
    requires least { 1 ≤ limit }
    requires most { limit ≤ most_rows }
{
    let options = options(rt)?;
    let files = files_at(rt, path, start)?;
    match fold_files(rt.alloc(), files, options, limit) {
        Ok(_) => Ok(()),
        Err((why, _)) => Err(why),
    }
}
