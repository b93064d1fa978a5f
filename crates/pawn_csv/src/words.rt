//! The words that columns state values by, and the texts that columns are written with.
ghost use Rattle.pawn_csv.specs.Columns.{closing_text, form_text, issue_text, kind_text, text_if_any, yes_text};
ghost use Rattle.pawn_csv.specs.Common.{secret_text, sort_text, state_text};
ghost use Rattle.pawn_csv.specs.Rows.{closing_amount, closing_day, closing_word};
ghost use Rattle.pawn_terms.specs.Calendar.{day_text};
ghost use Rattle.std.specs.Prelude.{◌≡◌, ℕ, List, decimal};

use crate::row::{ClosingWord, Version};
use itoa::Buffer;
use pawn_book::{BookingState, Closing, Day, Issue, Kind, Secret, Sort};
use uuid::Uuid;

/// A value that a column states by a word. Its row is written with this word, and is read by comparing with it.
pub(crate) trait ColumnWord: Copy {
    ghost text: { Self → List ℕ };

    /// Returns the word.
    fn column_word(&self) -> &[u8]
        ensures value { result.now ≡ text self.now };
}

impl ColumnWord for Version {
    ghost text = { form_text };

    fn column_word(&self) -> &[u8] {
        match self {
            Version::One => b"1",
            Version::Two => b"2",
        }
    }
}

impl ColumnWord for bool {
    ghost text = { yes_text };

    fn column_word(&self) -> &[u8] {
        match self {
            true => b"yes",
            false => b"no",
        }
    }
}

impl ColumnWord for Kind {
    ghost text = { kind_text };

    fn column_word(&self) -> &[u8] {
        match self {
            Kind::Fixed(_) => b"fixed",
            Kind::Running(_) => b"running",
        }
    }
}

impl ColumnWord for ClosingWord {
    ghost text = { closing_text };

    fn column_word(&self) -> &[u8] {
        match self {
            ClosingWord::Open => b"open",
            ClosingWord::Redeemed => b"redeemed",
            ClosingWord::Sold => b"sold",
        }
    }
}

impl ColumnWord for Issue {
    ghost text = { issue_text };

    fn column_word(&self) -> &[u8] {
        match self {
            Issue::Opening => b"opening",
            Issue::Sworn => b"sworn",
            Issue::Written => b"written",
        }
    }
}

impl ColumnWord for Sort {
    ghost text = { sort_text };

    fn column_word(&self) -> &[u8] {
        self.word().as_bytes()
    }
}

impl ColumnWord for BookingState {
    ghost text = { state_text };

    fn column_word(&self) -> &[u8] {
        self.word().as_bytes()
    }
}

/// Returns whether a pledge is open, redeemed or sold.
pub(crate) fn closing_word(closing: Closing) -> ClosingWord
    ensures value { result ≡ closing_word closing }
{
    match closing {
        Closing::Open => ClosingWord::Open,
        Closing::Redeemed { .. } => ClosingWord::Redeemed,
        Closing::Sold { .. } => ClosingWord::Sold,
    }
}

/// Returns the day of a closing, if there was one.
pub(crate) fn closing_day(closing: Closing) -> Option<Day>
    ensures value { result ≡ closing_day closing }
{
    match closing {
        Closing::Open => None,
        Closing::Redeemed { day, paid: _ } => Some(day),
        Closing::Sold { day, net: _ } => Some(day),
    }
}

/// Returns the sum that was paid or the net proceeds of the sale, in pence, if the pledge was closed.
pub(crate) fn closing_amount(closing: Closing) -> Option<u64>
    ensures value { result ≡ closing_amount closing }
{
    match closing {
        Closing::Open => None,
        Closing::Redeemed { day: _, paid } => Some(paid),
        Closing::Sold { day: _, net } => Some(net),
    }
}

/// Returns a number as text, or an empty text.
pub(crate) fn number_if_any(number: Option<u64>, buffer: &mut Buffer) -> &[u8]
    ensures value { result.now ≡ text_if_any decimal number }
{
    match number {
        Some(number) => buffer.format(number).as_bytes(),
        None => b"",
    }
}

/// Returns a day as text, or an empty text.
pub(crate) fn day_if_any(day: Option<Day>, buffer: &mut [u8; 10]) -> &[u8]
    ensures value { result.now ≡ text_if_any day_text day }
{
    match day {
        Some(day) => {
            *buffer = day.text();
            buffer.as_slice()
        }
        None => b"",
    }
}

/// Returns a secret as text, hyphenated and in lower case.
pub(crate) fn secret_text(secret: Secret, buffer: &mut [u8; 45]) -> &[u8]
    ensures value { result.now ≡ secret_text secret }
{
    Uuid::from_u128(secret.word())
        .hyphenated()
        .encode_lower(buffer)
        .as_bytes()
}
