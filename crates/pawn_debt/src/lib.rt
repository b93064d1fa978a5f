//! The debt on a pledge: its entries, its charges and the sum owed on a day.
#![tactic(auto)]

mod debt;
mod entry;
mod fault;
mod limits;
mod owing;
mod replay;
mod worked;

pub use debt::Debt;
pub use entry::{Entries, Entry, Kind, Sort};
pub use fault::DebtFault;
pub use limits::{MOST_ENTRIES, MOST_MILLIONTHS, MOST_PENCE};
pub use owing::{Owing, Totals, owing_from};
pub use pawn_base::Rows;
pub use pawn_terms::{Day, Rates, Terms};
pub use replay::{owing_at, replay_entries};
pub use worked::{worked_debts, worked_entries, worked_limits};
