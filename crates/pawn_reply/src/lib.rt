//! The replies of the HTTP interface, as bytes, and the faults that they report.
#![tactic(auto)]

mod bodies;
mod detail;
mod done;
mod fault;
mod laws;
mod reply;
mod status;
mod worked;

pub use detail::Detail;
pub use fault::{HeadFault, WireFault};
pub use laws::bodies_are_json;
pub use pawn_book::{Number, Receipt, Refusal, Reply};
pub use pawn_csv::{Cause, CsvFault};
pub use reply::{MEMORY_REPLY, Out, fault_reply, into_reply, memory_reply, write_reply};
pub use worked::worked_replies;
