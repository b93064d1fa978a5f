//! The parts of the program other than its store: the settings of its command line, the stamps of its requests, and its
//! connections.
#![tactic(auto)]

mod clock;
mod fault;
mod key_files;
mod serving;
mod settings;
mod stamps;
mod words;
mod worked;

pub use clock::{ClockStamps, MachineClock, SecondsClock};
pub use fault::SettingsFault;
pub use key_files::{KeyFileFault, KeyFiles, MachineFiles};
pub use serving::{Served, serve_connections};
pub use settings::{ServeSettings, Settings};
pub use stamps::Stamps;
pub use words::Words;
pub use worked::{worked_clock, worked_limits};
