//! The service: requests as bytes to replies as bytes, one by one, as a list or from a stream.
//!
//! ```
//! let keep = pawn_list_keeper::ListKeep::new(rt.alloc(), 5_000_000);
//! let mut service = Service::new(rt.alloc(), keep, operator)?;
//! let asked = b"GET /books/7/held HTTP/1.1\r\n\r\n";
//! match service.answer_one(&Stamp { day, word }, asked) {
//!     Answer::Bytes(reply) => stdout.write_all(reply.as_slice())?, // 712 NoReceipt
//!     Answer::Memory => stdout.write_all(MEMORY_REPLY)?,
//! }
//! ```
#![tactic(auto)]

mod buffer;
mod laws;
mod limits;
mod reading;
mod service;
mod session;
mod worked;

pub use laws::{
    ambiguous_ends, crash_leaves_whole, fault_is_exact, items_are_unique, nothing_is_wanted,
    run_reads_events, runs_answer_alone, runs_compose, shards_answer_as_one, split_ends_early,
    split_is_front, split_is_unique, whole_requests_begin_a_split,
};
pub use limits::{MOST_READS, MOST_REQUESTS};
pub use pawn_book::{Day, Keep, Number, RequestDay, Secret, Stamp};
pub use pawn_writing::Writing;
pub use reading::Reading;
pub use service::{Answer, Service};
pub use session::{Cause, Ended, IoFault, SessionEnd};
pub use worked::worked_limits;
