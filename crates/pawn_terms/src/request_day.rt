//! `RequestDay`, a day that a request may name.

ghost use Rattle.pawn_terms.specs.Calendar.{IsRequestDay, day_text};
ghost use Rattle.std.specs.Prelude.{◌≡◌, ◌↔◌, ℕ, IsOk, IfOk};

use crate::day::{BadDay, Day};
use crate::limits::LAST_REQUEST_DAY;
use std::marker::Model;

/// A day that a request, a stamp or a record may name, from 2000-01-01 to 2199-12-31. In contracts the value is the day
/// number, counted from 1970-01-01.
#[derive(Clone, Copy, PartialEq, Eq)]
pub struct RequestDay {
    day: Day,
}

impl Model for RequestDay {
    ghost Value = { ℕ };

    ghost view = { λ d. d.day };

    ghost invariant = { λ d. IsRequestDay d.day };

    ghost inverse = { λ n. record { day = n } };
}

impl RequestDay {
    /// This day as one that a request may name. `BadDay` if it is after 2199-12-31.
    pub fn of_day(day: Day) -> Result<RequestDay, BadDay>
        ensures ok { IfOk result (λ d. d ≡ day) }
        ensures succeeds { IsOk result ↔ IsRequestDay day }
    {
        if day.count() > LAST_REQUEST_DAY {
            return Err(BadDay);
        }
        Ok(RequestDay { day })
    }

    /// The day that a text such as `2024-01-31` names, in exactly this form. `BadDay` for any other text, and for a day
    /// that is not from 2000-01-01 to 2199-12-31.
    pub fn of_text(text: &[u8]) -> Result<RequestDay, BadDay>
        ensures ok { IfOk result (λ d. text.now ≡ day_text d) }
        ensures succeeds { IsOk result ↔ ((n : ℕ) × IsRequestDay n × (text.now ≡ day_text n)) }
    {
        let day = Day::of_text(text)?;
        Ok(RequestDay { day })
    }

    /// The same day as a `Day`.
    pub fn day(self) -> Day
        ensures value { result ≡ self }
        ensures in_range { IsRequestDay self }
    {
        self.day
    }
}
