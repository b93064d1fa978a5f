//! How the program reports that it did not do what it was asked.
ghost use Rattle.pawnd.specs.Stop.{stop_status};
ghost use Rattle.pawnd.specs.declared.fault.Fault.TheVariants.{Settings};
ghost use Rattle.std.specs.Prelude.{◌≡◌};
ghost use Rattle.std.specs.Process.{exit_status};
ghost use Rattle.pawnd.specs.declared.stop.Stop.TheVariants as Stops;

use crate::fault::Fault;
use pawn_program::SettingsFault;
use std::fmt;
use std::process::ExitCode;

/// Why the program ends without having done what it was asked.
#[derive(Clone, Copy)]
pub enum Stop {
    /// The command line names no command, or has too few or too many words for it.
    Usage,
    /// A fault of the settings, of memory or of the store: the program did not start, or did not end properly.
    Fault(Fault),
    /// Something outside the store failed: a read, a write, the port, or the system's random numbers.
    Io,
}

impl Stop {
    /// Returns the program's exit status: 2 for `Usage`, 1 for a fault, 3 for `Io`.
    pub fn status(self) -> u8
        ensures status { result ≡ stop_status self }
    {
        match self {
            Stop::Usage => 2,
            Stop::Fault(_) => 1,
            Stop::Io => 3,
        }
    }
}

impl From<SettingsFault> for Stop {
    ghost from_gives = { λ why stop. stop ≡ Stops.Fault (Settings why) };

    fn from(why: SettingsFault) -> Stop {
        Stop::Fault(Fault::Settings(why))
    }
}

impl fmt::Display for Stop {
    ghost use Rattle.pawnd.specs.Stop.{stop_line};
    ghost use Rattle.std.specs.Prelude.{Some};

    ghost output = { λ stop. Some (stop_line stop) };

    fn fmt<W: fmt::Write>(&self, f: &mut fmt::Formatter<W>) -> fmt::Result {
        match self {
            Stop::Usage => f.write_str("usage: pawnd answer|serve|migrate|check"),
            Stop::Fault(fault) => write!(f, "fault {fault}"),
            Stop::Io => f.write_str("fault io"),
        }
    }
}

/// Writes a line for the stop to standard error. Returns the exit status.
pub fn report(rt: &impl Eprint, stop: Stop) -> ExitCode
    ensures status { exit_status result ≡ stop_status stop }
{
    let _ = eprintln!(rt; "{stop}");
    ExitCode::from(stop.status())
}
