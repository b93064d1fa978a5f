//! The faults that the program prints, with their codes and names.
use pawn_check::CheckFault;
use pawn_move::MoveFault;
use pawn_program::SettingsFault;
use pawn_store::OpenFault;
use std::fmt;

/// Why the program does not do what it was asked.
#[derive(Clone, Copy)]
pub enum Fault {
    /// A word of the command line is at fault.
    Settings(SettingsFault),
    /// Memory ran out, outside the database.
    Memory,
    /// The database could not be opened or closed, or a fault has shut it.
    Opening(OpenFault),
    /// A check of the database found damage, or failed.
    Checking(CheckFault),
    /// The database could not be migrated to the program's schema.
    Moving(MoveFault),
}

impl fmt::Display for Fault {
    ghost use Rattle.pawnd.specs.Fault.{fault_line};
    ghost use Rattle.std.specs.Prelude.{Some};

    ghost output = { λ fault. Some (fault_line fault) };

    fn fmt<W: fmt::Write>(&self, f: &mut fmt::Formatter<W>) -> fmt::Result {
        f.write_str(match self {
            Fault::Settings(SettingsFault::BadDay) => "101 BadDay",
            Fault::Settings(SettingsFault::Memory) => "491 Memory",
            Fault::Settings(SettingsFault::BadSeed) => "801 BadSeed",
            Fault::Settings(SettingsFault::BadPort) => "802 BadPort",
            Fault::Settings(SettingsFault::BadKey) => "803 BadKey",
            Fault::Memory => "491 Memory",
            Fault::Opening(OpenFault::OldSchema(_)) => "501 OldSchema",
            Fault::Opening(OpenFault::NotOurs) => "502 NotOurs",
            Fault::Opening(OpenFault::Store) => "503 Store",
            Fault::Opening(OpenFault::Memory) => "504 Memory",
            Fault::Checking(CheckFault::Memory) => "491 Memory",
            Fault::Checking(CheckFault::Store) => "492 Store",
            Fault::Checking(CheckFault::Damaged) => "513 Damaged",
            Fault::Moving(MoveFault::NewerSchema) => "511 NewerSchema",
            Fault::Moving(MoveFault::NotOurs) => "512 NotOurs",
            Fault::Moving(MoveFault::Damaged) => "513 Damaged",
            Fault::Moving(MoveFault::Store) => "514 Store",
            Fault::Moving(MoveFault::Memory) => "515 Memory",
        })
    }
}
