//! `Number`, the number of a book or a pledge.

ghost use Rattle.pawn_pledge.specs.Number.{IsNumber};
ghost use Rattle.std.specs.Prelude.{◌≡◌, ◌↔◌, ℕ, IsSome, IfSome, IfNone, decimal};

use crate::limits::MOST_NUMBER;
use itoa::Buffer;
use std::marker::Model;

/// The number of a book or of a pledge, from 1 to 999,999,999. In contracts the value is that number.
#[derive(Clone, Copy, PartialEq, Eq)]
pub struct Number {
    number: u32,
}

impl Model for Number {
    ghost Value = { ℕ };

    ghost view = { λ n. n.number };

    ghost invariant = { λ n. IsNumber n.number };

    ghost inverse = { λ n. record { number = n } };
}

impl Number {
    /// The number, if it is from 1 to 999,999,999.
    pub fn new(number: u64) -> Option<Number>
        ensures some { IfSome result (λ n. n ≡ number) }
        ensures succeeds { IsSome result ↔ IsNumber number }
    {
        if number == 0 || number > MOST_NUMBER {
            return None;
        }
        Some(Number {
            number: number as u32,
        })
    }

    /// The number of a text of decimal digits without a leading zero, if it is from 1 to 999,999,999.
    pub fn of_text(text: &[u8]) -> Option<Number>
        ensures some { IfSome result (λ n. IsNumber n × (text.now ≡ decimal n)) }
        ensures none { IfNone result ((n : ℕ) → IsNumber n → text.now ≡ decimal n → ⊥) }
    {
        let Ok(digits) = str::from_utf8(text) else {
            return None;
        };
        let Ok(parsed) = digits.parse::<u64>() else {
            return None;
        };
        let Some(number) = Number::new(parsed) else {
            return None;
        };
        let mut buffer = Buffer::new();
        if buffer.format(parsed).as_bytes() == text {
            Some(number)
        } else {
            None
        }
    }

    /// The number as an integer.
    pub fn get(self) -> u32
        ensures value { result ≡ self }
        ensures in_range { IsNumber self }
    {
        self.number
    }

    /// Gives a proof that the number is in range.
    pub fn know_limits(self)
        ensures in_range { IsNumber self }
    {
        let _ = self.number;
    }
}
