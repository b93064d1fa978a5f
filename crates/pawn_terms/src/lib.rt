//! Days, the terms of an agreement, and the end of its period.
#![tactic(auto)]

mod day;
mod laws;
mod limits;
mod request_day;
mod terms;
mod worked;

pub use day::{BadDay, Day, last_day};
pub use laws::law_of_calendars;
pub use limits::LAST_REQUEST_DAY;
pub use request_day::RequestDay;
pub use terms::{Rates, Terms, TermsFault};
pub use worked::{worked_days, worked_ends, worked_limits, worked_terms};
