//! A book's text: its rows as records of comma-separated columns.
#![tactic(auto)]

mod book_reading;
mod columns;
mod exporting;
mod fault;
mod finishing;
mod importing;
mod laws;
mod order;
mod row;
mod row_writing;
mod spelling;
mod words;
mod worked;

pub use book_reading::read_book;
pub use exporting::{RowWriter, export};
pub use fault::{Cause, CsvFault};
pub use importing::import;
pub use laws::{
    laws_of_texts, rows_have_one_layout, rows_have_one_spelling, texts_have_one_reading,
};
pub use pawn_book::{
    BookRows, Booking, Day, Entry, Extension, Issued, Keep, Number, Opening, Rates, Refusal,
    ReplayableRows, Reply, Secret, Stamp,
};
pub use pawn_writing::ViewFault;
pub use row::{ClosingWord, PledgeColumns, Row, Version};
pub use worked::worked_texts;
