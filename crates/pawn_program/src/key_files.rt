//! Reads the file that holds the operator's key.
ghost use Rattle.pawn_program.specs.declared.key_files.KeyFileFault.TheVariants.{Memory, Unreadable};
ghost use Rattle.std.specs.IoError.{error_kind};
ghost use Rattle.std.specs.Prelude.{◌≡◌, ◌≢◌, List, ℕ, Result};
ghost use Rattle.std.specs.declared.io.ErrorKind.TheVariants.{OutOfMemory};

use pawn_book::Rows;
use std::fs::Files;
use std::io::Read;
use std::{fs, io};

/// The most bytes of a key file that are read. The longest text of a key has 45 bytes, and a line end has two.
const MOST_KEY_BYTES: u64 = 64;

/// Why a key file was not read.
#[derive(Clone, Copy)]
pub enum KeyFileFault {
    /// There is no such file, it is not a regular file, or it can't be read.
    Unreadable,
    /// Memory ran out.
    Memory,
}

/// Access to files by their paths; one of them may hold the operator's key.
pub trait KeyFiles {
    ghost use Rattle.pawn_program.specs.declared.key_files.KeyFileFault.{KeyFileFault};

    // What a call may find in the file at a path, and the files after the call.
    ghost reads: { Self → List ℕ → Result (List ℕ) KeyFileFault → Self → Type 0 };

    /// Returns the first 64 bytes of the file at a path.
    fn read(&mut self, path: &str) -> Result<Rows<u8>, KeyFileFault>
        ensures reads { reads self.old path.now result self.new };
}

/// The machine's files. No clause states what they hold.
#[derive(Drop)]
pub struct MachineFiles<'a, R> {
    rt: &'a R,
}

impl<'a, R: Files + AllocGlobal> MachineFiles<'a, R> {
    /// Returns the files of this machine.
    pub fn new(rt: &'a R) -> Self {
        MachineFiles { rt }
    }
}

impl<'a, R: Files + AllocGlobal> KeyFiles for MachineFiles<'a, R> {
    ghost reads = { λ _ _ _ _. Unit {0} };

    fn read(&mut self, path: &str) -> Result<Rows<u8>, KeyFileFault> {
        match fs::metadata(self.rt, path) {
            Ok(found) if found.is_file() => {}
            Ok(_) => return Err(KeyFileFault::Unreadable),
            Err(error) => return Err(unread(&error)),
        }
        match front_of(self.rt, path) {
            Ok(bytes) => Ok(Rows::from_vec(bytes)),
            Err(error) => Err(unread(&error)),
        }
    }
}

/// Returns the first bytes of the file at a path, at most `MOST_KEY_BYTES`.
fn front_of(rt: &(impl Files + AllocGlobal), path: &str) -> io::Result<Vec<u8>> {
    let mut bytes = Vec::new(rt.alloc());
    let file = fs::open(rt, path)?;
    file.take(MOST_KEY_BYTES).read_to_end(&mut bytes)?;
    Ok(bytes)
}

/// Returns why a file could not be read: `Memory` if memory ran out, otherwise `Unreadable`.
fn unread(error: &io::Error) -> KeyFileFault
    ensures memory { error_kind error.now ≡ OutOfMemory → result ≡ Memory }
    ensures other { error_kind error.now ≢ OutOfMemory → result ≡ Unreadable }
{
    match error.kind() {
        io::ErrorKind::OutOfMemory => KeyFileFault::Memory,
        _ => KeyFileFault::Unreadable,
    }
}
