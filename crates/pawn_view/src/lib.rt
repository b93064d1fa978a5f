//! The texts of a book's pledges and days, written line by line to any writer.
#![tactic(auto)]

mod lines;
mod money;
mod receipts;
mod sheets;
mod statements;
mod worked;

pub use pawn_writing::{ViewFault, Writing};
pub use receipts::show_presented;
pub use sheets::show_day_sheet;
pub use statements::show_statement;
pub use worked::{worked_lines, worked_sheets, worked_statements, worked_words};
