//! Migrates the store in a file to the program's schema.
ghost use Rattle.std.specs.Prelude.{◌≡◌, false};

use crate::fault::Fault;
use crate::stop::Stop;
use crate::store::is_memory;
use pawn_move::{MoveFault, migrate};
use pawn_opening::{OpenFault, close_files, connect_path};
use sqlite::{Alter, Connection, FileFrom, FileStore};
use sqlite_disk::Wary;
use std::io::ErrorKind;
use std::{fmt, fs};

/// The numbers of two schemas: the one that a store had, and the program's, which it has now.
#[derive(Clone, Copy)]
pub struct Schemas {
    /// The schema that the store had.
    pub found: u32,
    /// The program's schema.
    pub program: u32,
}

impl fmt::Display for Schemas {
    ghost use Rattle.pawnd.specs.Moved.{moved_line};
    ghost use Rattle.std.specs.Prelude.{Some};

    ghost output = { λ schemas. Some (moved_line schemas) };

    fn fmt<W: fmt::Write>(&self, f: &mut fmt::Formatter<W>) -> fmt::Result {
        write!(f, "schema {} to {}", self.found, self.program)
    }
}

/// Returns the stop of a store that is not migrated.
fn unmoved(why: MoveFault) -> Stop {
    Stop::Fault(Fault::Moving(why))
}

/// Returns the stop of a store that can't be opened or closed for a migration.
fn stop_of(why: OpenFault) -> Stop {
    unmoved(MoveFault::of_opening(why))
}

/// Returns whether there is anything at a path other than an empty file.
fn is_there(rt: &HostRuntime, path: &str) -> Result<bool, Stop> {
    match fs::metadata(rt, path) {
        Ok(found) => Ok(!found.is_file() || found.len() > 0),
        Err(error) if error.kind() == ErrorKind::NotFound => Ok(false),
        Err(error) if error.kind() == ErrorKind::OutOfMemory => Err(unmoved(MoveFault::Memory)),
        Err(_) => Err(unmoved(MoveFault::Store)),
    }
}

/// A connection to a file. Nothing is assumed of the file's first bytes, or of what a crash leaves of an unfinished
/// write.
type FileConnection = Connection<FileStore<FileFrom<Wary>>>;

/// Closes the file of a store that was migrated. Everything that was committed is then in the database file.
fn close(conn: FileConnection) -> Result<(), Stop> {
    match close_files(conn) {
        Ok(_) => Ok(()),
        Err((why, _)) => Err(stop_of(why)),
    }
}

/// Migrates the store of a connection outside a transaction. If it can't be migrated, the store is dropped.
fn moved<S: Alter + Drop>(
    rt: &HostRuntime,
    mut conn: Connection<S>,
) -> Result<(Connection<S>, Schemas), Stop>
    requires rests { conn.in_transaction ≡ false }
{
    match migrate(rt.alloc(), &mut conn) {
        Ok((found, program)) => Ok((conn, Schemas { found, program })),
        Err(why) => {
            let _store = conn.into_store();
            Err(unmoved(why))
        }
    }
}

/// Migrates the store in a file over a connection outside a transaction, and closes the file.
fn move_over(rt: &HostRuntime, conn: FileConnection) -> Result<Schemas, Stop>
    requires rests { conn.in_transaction ≡ false }
{
    let (conn, schemas) = moved(rt, conn)?;
    close(conn)?;
    Ok(schemas)
}

/// Migrates the store in the file at a path to the program's schema, and closes it. If there is no file, none is
/// created, and an empty file stays empty. Both are refused as `NotOurs`, and so is a store in memory.
pub fn move_file(rt: &HostRuntime, path: &str) -> Result<Schemas, Stop> {
    if is_memory(path) || !is_there(rt, path)? {
        return Err(unmoved(MoveFault::NotOurs));
    }
    match connect_path(rt, path, Wary) {
        Ok(conn) => move_over(rt, conn),
        Err(why) => Err(stop_of(why)),
    }
}
