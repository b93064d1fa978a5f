//! Disks in memory that fail from some call on, and stores on them.

use pawn_opening::open_files;
use sqlite::{Alter, Connection, FileStore, Files, Options};
use sqlite_disk::{Crash, Disk, Fuse, Memory};
use std::alloc::Global;
use std::test::Fail;

/// The two files of a store.
pub type Disks = Files<Fuse<Memory>>;

/// More calls than any test makes.
const NEVER: u64 = 1_000_000;

/// The options of a store so small that its log is copied into the database file while the store is used.
const SMALL: Options = Options {
    cache_pages: 40,
    spill_pages: 40,
    checkpoint_frames: 12,
    seed: 1,
};

/// The file whose calls fail from some call on.
#[derive(Clone, Copy, Debug)]
pub enum Failing {
    Log,
    Database,
}

/// Returns disks of which one file answers this many calls, and fails at each call after them.
pub fn disks(alloc: Global, failing: Failing, calls: u64) -> Disks {
    let (log, db) = match failing {
        Failing::Log => (calls, NEVER),
        Failing::Database => (NEVER, calls),
    };
    Files {
        log: Fuse::new(Memory::new(alloc), log),
        db: Fuse::new(Memory::new(alloc), db),
    }
}

/// Returns whether both files would have answered one more call.
pub fn go_on(disks: &mut Disks) -> bool {
    if !disks.log.may_be_used() {
        return false;
    }
    if !disks.db.may_be_used() {
        return false;
    }
    disks.log.len().is_ok() && disks.db.len().is_ok()
}

/// Returns the disks after a crash: they hold what was synced, and answer again.
pub fn crashed(mut disks: Disks) -> Disks {
    disks.log.crash();
    disks.db.crash();
    disks
}

/// Tries a stop at the first call, at the second, and so on, until a try meets no stop.
pub fn until_whole<T: FnMut(u64) -> Result<bool, Fail>>(mut tried_at: T) -> Result<(), Fail>
    requires may_be_tried { (f : _) (x : _) → T.pre f x }
{
    for calls in 0..10_000u64 {
        if tried_at(calls)? {
            return Ok(());
        }
    }
    Err(Fail::from("each try met a stop"))
}

/// Work on a store of any type. One function that opens a store on disks serves all kinds of work.
pub trait Visit {
    type Found;

    /// Does the work. Returns its result and the store, or `None` if the store has no keeper.
    fn visit<S: Alter + Drop>(&self, conn: Connection<S>) -> Option<(Self::Found, S)>;
}

/// Returns the store on the disks. If there is none, it is created with room for a hundred rows. If it is not opened,
/// the error is the rest of the disks.
fn store_on(alloc: Global, disks: Disks) -> Result<Connection<FileStore<Fuse<Memory>>>, Disks> {
    if !disks.log.may_be_used() {
        return Err(disks);
    }
    if !disks.db.may_be_used() {
        return Err(disks);
    }
    match open_files(alloc, disks, SMALL, 100) {
        Ok(conn) => Ok(conn),
        Err((_, left)) => Err(left.into_files()),
    }
}

/// Does the work on a store on disks. This is a function of its own, because each function with a call that is generic
/// in the store is expensive to prove.
fn visit_on<V: Visit>(
    conn: Connection<FileStore<Fuse<Memory>>>,
    visit: &V,
) -> Option<(V::Found, FileStore<Fuse<Memory>>)> {
    visit.visit(conn)
}

/// Opens the store on the disks, which is created if there is none, does the work and closes the store. Returns the
/// result of the work, if the store was opened, and the disks that are left. `None` if the store has no keeper.
pub fn visited<V: Visit>(
    alloc: Global,
    disks: Disks,
    visit: &V,
) -> Option<(Option<V::Found>, Disks)> {
    match store_on(alloc, disks) {
        Err(left) => Some((None, left)),
        Ok(conn) => {
            let (found, store) = visit_on(conn, visit)?;
            Some((Some(found), store.close()))
        }
    }
}

/// Does the work on the database on the disks, whatever it holds, and returns the result.
pub fn looked_at<V: Visit>(alloc: Global, disks: Disks, visit: &V) -> Option<V::Found> {
    if !disks.log.may_be_used() {
        return None;
    }
    if !disks.db.may_be_used() {
        return None;
    }
    let conn = Connection::open_files(alloc, disks, SMALL).ok()?;
    let (found, _) = visit_on(conn, visit)?;
    Some(found)
}
