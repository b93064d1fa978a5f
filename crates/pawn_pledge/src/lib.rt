//! One pledge: its record, its status, the commands on it, and its receipts.
#![tactic(auto)]

mod brief;
mod command;
mod laws;
mod limits;
mod number;
mod parts;
mod pledge;
mod receipt;
mod record;
mod refusal;
mod secret;
mod status;
mod worked;

pub use brief::{Brief, BriefFields, Counts};
pub use command::{Applied, BearerCommand, BrokerCommand, Command, Decision, Done, Paper, Stamp};
pub use laws::{
    laws_of_briefs, laws_of_lists, laws_of_receipts, laws_of_repeats, laws_of_steps, laws_of_texts,
};
pub use limits::{
    LAST_WINDOW, MOST_ARTICLE_BYTES, MOST_EXTENSIONS, MOST_REFERENCE_BYTES, MOST_SECRETS,
};
pub use number::Number;
pub use parts::Parts;
pub use pawn_base::Text;
pub use pawn_debt::{
    Day, DebtFault, Entries, Entry, Kind, Owing, Rates, Rows, Sort, Terms, Totals,
};
pub use pawn_terms::{BadDay, RequestDay};
pub use pledge::Pledge;
pub use receipt::{BadReceipt, Receipt};
pub use record::{
    Agreement, Article, Booking, BookingState, Closing, Extension, Extensions, Issue, Issued,
    Opening, Reference, Secrets, Standing, Status,
};
pub use refusal::Refusal;
pub use secret::Secret;
pub use worked::{
    worked_bookings, worked_closings, worked_entries, worked_extensions, worked_limits,
    worked_pledges, worked_receipts, worked_texts,
};
