//! `Capacity`, the most confirmed bookings in one window of a day.

ghost use Rattle.pawn_book.specs.Limits.{IsCapacity};
ghost use Rattle.std.specs.Prelude.{◌≡◌, ℕ, IfSome, IsSome, ◌↔◌};

use crate::limits::MOST_BOOKINGS;
use std::marker::Model;

/// The most bookings that a book confirms in one window of a day: 1 to 1,000. In contracts the value is that number.
#[derive(Clone, Copy, PartialEq, Eq)]
pub struct Capacity {
    bookings: u32,
}

impl Model for Capacity {
    ghost Value = { ℕ };

    ghost view = { λ c. c.bookings };

    ghost invariant = { λ c. IsCapacity c.bookings };

    ghost inverse = { λ n. record { bookings = n } };
}

impl Capacity {
    /// The capacity for this number of bookings, or `None` if the number is not 1 to 1,000.
    pub fn new(bookings: u64) -> Option<Capacity>
        ensures value { IfSome result (λ c. c ≡ bookings) }
        ensures some { IsSome result ↔ IsCapacity bookings }
    {
        match u32::try_from(bookings) {
            Ok(bookings) if (1..=MOST_BOOKINGS).contains(&bookings) => Some(Capacity { bookings }),
            _ => None,
        }
    }

    /// The number of bookings.
    pub fn get(self) -> u32
        ensures value { result ≡ self }
        ensures in_range { IsCapacity self }
    {
        self.bookings
    }
}
