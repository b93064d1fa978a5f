//! Amounts of money as text.
ghost use Rattle.pawn_terms.specs.Calendar.{digit};
ghost use Rattle.std.specs.Prelude.{◌≡◌, ◌/◌, [], ◌∷◌};

/// Returns the pence beyond whole pounds as text: a point and two digits.
pub(crate) fn pence_text(pence: u64) -> [u8; 3]
    ensures answer { result ≡ 46 ∷ digit (pence / 10) ∷ digit pence ∷ [] }
{
    [b'.', digit_of(pence / 10), digit_of(pence)]
}

/// Returns the character of a number's last digit.
fn digit_of(number: u64) -> u8
    ensures answer { result ≡ digit number }
{
    b'0' + (number % 10) as u8
}
