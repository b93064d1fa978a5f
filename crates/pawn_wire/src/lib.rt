//! Reads the requests of the HTTP interface from bytes.
#![tactic(auto)]

mod body;
mod callers;
mod commands;
mod fields;
mod head;
mod laws;
mod limits;
mod member;
mod numeral;
mod receipts;
mod request;
mod route;
mod router;
mod target;
mod worked;

pub use head::{HeadFacts, HeadRead, read_head};
pub use laws::{laws_of_readings, targets_have_one_spelling};
pub use limits::MOST_HEAD;
pub use pawn_book::{
    Article, BearerCommand, BearerRequest, Booking, BookingState, BrokerCommand, BrokerRequest,
    Caller, Capacity, Day, Decision, Entry, Kind, Name, NewBook, NewTerms, Number, Opening, Paper,
    Receipt, Receipts, Reference, Request, RequestDay, Secret, Sort, TermsFault, Text,
};
pub use pawn_reply::{Cause, CsvFault, HeadFault, WireFault};
pub use request::read_request;
pub use router::Router;
pub use worked::{
    worked_bodies, worked_fields, worked_heads, worked_limits, worked_requests, worked_targets,
    worked_texts,
};
