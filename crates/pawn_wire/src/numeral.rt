//! Numbers in the fields of a head.
ghost use Rattle.pawn_wire.specs.Common.{digits_value, is_ascii_digit, list_all};
ghost use Rattle.pawn_wire.specs.Numeral.{is_short_numeral, decimal_of};
ghost use Rattle.std.specs.Prelude.{◌≡◌, IsTrue};

use crate::limits::MOST_DIGITS;

/// Returns whether each byte is a decimal digit.
fn are_digits(text: &[u8]) -> bool
    ensures value { result ≡ list_all is_ascii_digit text.now }
{
    text.iter().all(|b| b.is_ascii_digit())
}

/// Returns whether the text is 1 to 19 digits.
fn is_short_numeral(text: &[u8]) -> bool
    ensures value { result ≡ is_short_numeral text.now }
{
    !text.is_empty() && text.len() <= MOST_DIGITS && are_digits(text)
}

/// Returns the number that these digits write.
fn number(text: &[u8]) -> u64
    requires numeral { IsTrue (is_short_numeral text.now) }
    ensures value { result ≡ digits_value 10 text.now }
{
    let mut number: u64 = 0;
    for digit in text {
        number = number * 10 + u64::from(*digit - b'0');
    }
    number
}

/// Returns the number that a text of 1 to 19 digits writes. `None` for any other text.
pub(crate) fn decimal(text: &[u8]) -> Option<u64>
    ensures value { result ≡ decimal_of text.now }
{
    if is_short_numeral(text) {
        Some(number(text))
    } else {
        None
    }
}
