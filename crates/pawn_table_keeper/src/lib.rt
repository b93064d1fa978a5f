//! The keeper `TableKeep`, which has its books in the tables of a database. A read runs in a transaction that is rolled
//! back, a save in one that is committed.
#![tactic(auto)]

mod keeper;

pub use keeper::TableKeep;
