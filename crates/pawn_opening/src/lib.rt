//! Opens and closes stores. A new store gets its tables, and an existing one is recognised by the schema that it notes;
//! the result is a connection whose tables stand for a host.
#![tactic(auto)]

mod connecting;
mod fault;
mod finding;
mod first_content;
mod folding;
mod indexing;
mod laying;
mod noting;
mod opening;
mod preparing;
mod recognising;
mod worked;

pub use connecting::connect_path;
pub use fault::OpenFault;
pub use folding::{fold_files, fold_path};
pub use indexing::{Lacking, add_indexes, indexes_lacking, make_indexes};
pub use laying::{make_extensions, make_totals};
pub use opening::{close_files, open_files, open_memory, open_path};
pub use preparing::prepare;
pub use recognising::{SCHEMA, schema_noted};
pub use worked::worked_indexes;
