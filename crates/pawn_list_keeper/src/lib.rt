//! The simple keeper of books: a list in memory, which it searches from the front. Its only errors are `Memory` and,
//! for a save, `Full`. It serves tests, and users of the library who want books without a database. The program keeps
//! its books in tables (`pawn_table_keeper`).
#![tactic(auto)]

mod kept;
mod list;
mod list_import;
mod list_reads;
mod row_items;
mod saving;
mod sheet;

pub use list::ListKeep;
