//! Definitions that the other crates share: rows in order, texts within limits, and refusals in the order of the rules.
#![tactic(auto)]

mod rows;
mod text;

pub use rows::Rows;
pub use text::Text;
