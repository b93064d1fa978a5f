//! `Secret`, the 128 random bits of a receipt, and its text in the form of a UUID.

ghost use Rattle.pawn_pledge.specs.Secret.{secret_text, secret_of_text};
ghost use Rattle.std.specs.Prelude.{◌≡◌, ◌<◌, ℕ, IfOk, string_bytes};

use std::alloc::{AllocError, Global};
use std::marker::Model;
use uuid::Uuid;

/// A secret of 128 bits. In contracts the value is its number.
#[derive(Clone, Copy, PartialEq, Eq)]
pub struct Secret {
    word: u128,
}

impl Model for Secret {
    ghost Value = { ℕ };

    ghost view = { λ s. s.word };

    ghost inverse = { λ n. record { word = n } };
}

impl Secret {
    /// The secret that is this 128-bit word.
    pub fn of_word(word: u128) -> Secret
        ensures value { result ≡ word }
    {
        Secret { word }
    }

    /// The secret as a 128-bit word.
    pub fn word(self) -> u128
        ensures value { result ≡ self }
    {
        self.word
    }

    /// The secret of a text in any of the four forms of a UUID, or `None` for any other text.
    pub fn of_text(text: &[u8]) -> Option<Secret>
        ensures value { result ≡ secret_of_text text.now }
    {
        match Uuid::try_parse_ascii(text) {
            Ok(id) => Some(Secret { word: id.as_u128() }),
            Err(_) => None,
        }
    }

    /// The hyphenated text of the secret, with lower-case letters. Fails only if memory runs out.
    pub fn text(self, alloc: Global) -> Result<String, AllocError>
        ensures ok { IfOk result (λ t. string_bytes t ≡ secret_text self) }
    {
        let mut buffer = Uuid::encode_buffer();
        let text = Uuid::from_u128(self.word)
            .hyphenated()
            .encode_lower(&mut buffer);
        String::from_str(alloc, text)
    }
}
