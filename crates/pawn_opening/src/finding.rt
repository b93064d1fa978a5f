//! Opens the files at a path, and sets the options of a database.
ghost use Rattle.pawn_opening.specs.Refusing.{IsStoreFault};
ghost use Rattle.sqlite_std_file.specs.File.{IsFresh, file_is_usable};
ghost use Rattle.std.specs.Prelude.{true, false, IsTrue, IfErr, IfOk};

use crate::fault::OpenFault;
use sqlite::{FileFrom, Files, Options, Start};
use sqlite_std_file::OpenError;
use std::hash::{BuildHasher, RandomState};
use std::io::ErrorKind;

/// How many pages of 4,096 bytes of the database file the program caches: half of the library's default. The operating
/// system caches them too; reading a page again costs the computation of its checksum.
const KEPT_PAGES: usize = 1000;

/// Opens the log and the database file at a path, and makes those that are missing. The error is `Store` for `:memory:`
/// and for a path that begins with `file:`, because other programs read these as a database in memory and as a URI;
/// otherwise it is `Memory` if out of memory, and `Store` if a file cannot be opened.
pub(crate) fn files_at<S: Start>(
    rt: &HostRuntime,
    path: &str,
    start: S,
) -> Result<Files<FileFrom<S>>, OpenFault>
    ensures usable { IfOk result (λ files. IsTrue (file_is_usable S.Start files.log) × IsTrue (file_is_usable S.Start files.db)) }
    ensures fresh { IfOk result (λ files. IsFresh true files.log × IsFresh false files.db) }
    ensures refused { IfErr result IsStoreFault }
{
    if path == ":memory:" || path.starts_with("file:") {
        return Err(OpenFault::Store);
    }
    match sqlite_std_file::open(rt, path, start) {
        Ok(files) => Ok(files),
        Err(OpenError::OutOfMemory) => Err(OpenFault::Memory),
        Err(OpenError::Io(error)) if error.kind() == ErrorKind::OutOfMemory => {
            Err(OpenFault::Memory)
        }
        Err(_) => Err(OpenFault::Store),
    }
}

/// The options of a database: a random seed for its log, and how many pages are cached. The error is `Store`, if no
/// random number is available.
pub(crate) fn options(rt: &HostRuntime) -> Result<Options, OpenFault>
    ensures refused { IfErr result IsStoreFault }
{
    let Ok(random) = RandomState::new(rt) else {
        return Err(OpenFault::Store);
    };
    let mut options = Options::new(random.hash_one(&0u8));
    options.cache_pages = KEPT_PAGES;
    Ok(options)
}
