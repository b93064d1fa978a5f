//! `Text`, a text of limited length without control characters.

ghost use Rattle.pawn_base.specs.Text.{is_plain, is_text, IsText};
ghost use Rattle.std.specs.List.{list_all};
ghost use Rattle.std.specs.Prelude.{◌≡◌, ◌↔◌, List, ℕ, IfOk, IfSome, IsSome, string_bytes};

use std::alloc::{AllocError, Global};
use std::marker::Model;

/// A UTF-8 text of 1 to `MOST` bytes, none of them an ASCII control character (0x00 to 0x1F and 0x7F). In contracts the
/// value is the list of its bytes.
#[derive(Drop)]
pub struct Text<const MOST: usize> {
    string: String,
}

impl<const MOST: usize> Model for Text<MOST> {
    ghost Value = { List ℕ };

    ghost view = { λ t. string_bytes t.string };

    ghost invariant = { λ t. IsText MOST (string_bytes t.string) };
}

impl<const MOST: usize> Text<MOST> {
    /// Makes a text of a string. Returns `None` if the string is empty, has more than `MOST` bytes, or has an ASCII
    /// control character. Fails only if memory runs out.
    pub fn of_str(alloc: Global, text: &str) -> Result<Option<Text<MOST>>, AllocError>
        ensures some { IfOk result (λ t. IfSome t (λ bytes. bytes ≡ text.now)) }
        ensures succeeds { IfOk result (λ t. IsSome t ↔ IsText MOST text.now) }
    {
        if !is_text(MOST, text) {
            return Ok(None);
        }
        let string = String::from_str(alloc, text)?;
        Ok(Some(Text { string }))
    }

    /// The text as a string slice, which is within the limits.
    pub fn as_str(&self) -> &str
        ensures value { result.now ≡ self.now }
        ensures in_limits { IsText MOST self.now }
    {
        self.string.as_str()
    }

    /// A copy of the text. Fails only if memory runs out.
    pub fn copy(&self) -> Result<Text<MOST>, AllocError>
        ensures ok { IfOk result (λ t. t ≡ self.now) }
    {
        let string = String::from_str(*self.string.allocator(), self.string.as_str())?;
        Ok(Text { string })
    }
}

/// Whether a text has 1 to `most` bytes, none of them an ASCII control character.
fn is_text(most: usize, text: &str) -> bool
    ensures value { result ≡ is_text most text.now }
{
    let bytes = text.as_bytes();
    !bytes.is_empty() && bytes.len() <= most && are_plain(bytes)
}

/// Whether no byte is an ASCII control character.
fn are_plain(bytes: &[u8]) -> bool
    ensures value { result ≡ list_all is_plain bytes.now }
{
    bytes.iter().all(|byte| *byte >= 0x20 && *byte != 0x7F)
}
