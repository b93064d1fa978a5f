//! The service over the tables of a store: opening a store as a keeper, and answering requests over it. The contracts
//! state what holds for the answers and for the store.
#![tactic(auto)]

mod connections;
mod laws;
mod opening;
mod running;

pub use connections::{CONNECTIONS, StoreShut, serve_to_the_end};
pub use laws::{empty_host_is_sound, opened_has_answered_nothing, other_rows_stay};
pub use opening::{close_keep, keep_at_path, keep_in_memory};
pub use pawn_host::{Answer, Service, Stamp};
pub use pawn_opening::OpenFault;
pub use pawn_table_keeper::TableKeep;
pub use running::{
    ServedTables, answer_by_settings, answer_over_tables, run_over_tables, serve_over_tables,
};
pub use sqlite::{FileFrom, FileStore, Files, Leftover, MemStore, Start};
