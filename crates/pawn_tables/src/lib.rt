//! The tables of the store: the texts of all SQL statements, the encoding of values, and the reads of books and
//! pledges. Each read runs within a borrowed transaction. Its contract speaks of tables that represent a host
//! (`specs/StandsFor.antt`), as long as the disk returns what was written.
#![tactic(auto)]

mod books;
mod briefs;
mod cells;
mod credits;
mod encoding;
mod heads;
mod joining;
mod kinds;
mod laws;
mod line;
mod lines;
mod list_decoding;
mod list_elements;
mod list_ends;
mod pages;
mod pledge_decoding;
mod queries;
mod ranges;
mod records;
mod sheets;
pub mod texts;
mod whole;
mod worked;
mod write_statement;

pub use books::{confirmed_in, head_in, next_in, ref_in, rows_in};
pub use briefs::{brief_in, further_brief_in};
pub use cells::keeper_error;
pub use credits::{Credit, credit_in};
pub use encoding::{
    DATABASE_FAILED, agreed_value, closed_amount, closed_day, closed_number, flag_number,
    in_32_bits, issue_number, kind_number, sort_number, state_number,
};
pub use kinds::RowKind;
pub use laws::tables_stand_for_one;
pub use line::Line;
pub use list_elements::{entry_in, extension_in, secret_in};
pub use pages::{PAGE_ROWS, entries_page, extensions_page};
pub use queries::{booking_in, entries_in, terms_in};
pub use ranges::{KindPage, RANGE, kind_page, list_page};
pub use sheets::{count_in, lines_page, windows_in};
pub use whole::{pledge_of, terms_under};
pub use worked::worked_tables;
pub use write_statement::write;
