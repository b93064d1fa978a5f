//! Checks a whole store: whether each of its books is sound, and how many books, pledges and rows it has. It works over
//! any keeper.
#![tactic(auto)]

mod books;
mod counts;
mod fault;
mod line;
mod pledges;

pub use books::check;
pub use counts::{BookCounts, Counts};
pub use fault::{CheckFault, LineFault};
pub use line::write_counts;
pub use pawn_book::Keep;
