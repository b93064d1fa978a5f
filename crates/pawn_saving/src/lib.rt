//! Saves a change: writes its rows into the tables and counts them, in one transaction that is committed or rolled
//! back.
#![tactic(auto)]

mod books;
mod changes;
mod counting;
mod entries;
mod import_writes;
mod lengths;
mod list_inserts;
mod pledges;
mod putting;
mod renewing;
mod saving;
mod stored;

pub use pledges::put_totals;
pub use saving::save;
