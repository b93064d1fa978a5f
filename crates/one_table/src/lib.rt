//! SQL statements on one table at a time, run in a borrowed transaction, for any schema. `specs/` and `proofs/` say
//! what such statements show and change in terms of the rows of the table.
#![tactic(auto)]

mod statements;

pub use statements::{ask, know_settled, run};
