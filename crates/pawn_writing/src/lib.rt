//! Texts that are written in pieces to any writer, and the result of writing them.
#![tactic(auto)]

mod fault;
mod list_visits;
mod writing;

pub use fault::ViewFault;
pub use list_visits::{visit_entries, visit_extensions};
pub use writing::{Writing, put, put_all, send};
