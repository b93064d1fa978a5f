//! The migration of a store from an older schema to the program's. The store stands for the same host before and after.
#![tactic(auto)]

mod checking;
mod debts;
mod fault;
mod laws;
mod making;
mod migrating;
mod noted_schema;
mod totals_inserts;

pub use fault::MoveFault;
pub use laws::the_third_is_ours;
pub use migrating::migrate;
pub use noted_schema::schema_of;
