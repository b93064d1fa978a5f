//! `Receipt`, a pledge's number with a secret, and its text.

ghost use Rattle.std.specs.Prelude.{◌≡◌, IfOk, IfErr, string_bytes, codes, position, ◌==◌};

use crate::number::Number;
use crate::secret::Secret;
use itoa::Buffer;
use std::alloc::{AllocError, Global};
use std::error::Error;
use std::fmt;

/// A pledge's number with a secret. A receipt is issued when the pledge is taken and on each declaration. While it is
/// live, its bearer may redeem the pledge.
#[derive(Clone, Copy, PartialEq, Eq)]
pub struct Receipt {
    pub number: Number,
    pub secret: Secret,
}

/// The error for a text that is not the text of a receipt.
#[derive(Clone, Copy, Debug)]
pub struct BadReceipt;

impl BadReceipt {
    /// The code of the fault in replies.
    pub fn code(self) -> u16
        ensures value { result ≡ 710 }
    {
        710
    }

    /// The name of the fault in replies.
    pub fn name(self) -> &'static str
        ensures value { result.now ≡ codes "BadReceipt" }
    {
        "BadReceipt"
    }
}

impl fmt::Display for BadReceipt {
    ghost use Rattle.std.specs.Prelude.{Some, codes};

    ghost output = { λ fault. Some (codes "BadReceipt") };

    fn fmt<W: fmt::Write>(&self, f: &mut fmt::Formatter<W>) -> fmt::Result {
        f.write_str(self.name())
    }
}

impl Error for BadReceipt {}

impl Receipt {
    ghost use Rattle.pawn_pledge.specs.Receipt.{IsReceiptText, receipt_text};

    /// The receipt that a text names: a number without a leading zero, a hyphen, and a secret in any form that
    /// `Secret::of_text` reads. `BadReceipt` for any other text.
    pub fn of_text(text: &[u8]) -> Result<Receipt, BadReceipt>
        ensures ok { IfOk result (λ r. IsReceiptText text.now r) }
        ensures err { IfErr result (λ e. (r : Receipt) → IsReceiptText text.now r → ⊥) }
    {
        let Some(at) = hyphen_at(text) else {
            return Err(BadReceipt);
        };
        if at >= text.len() {
            return Err(BadReceipt);
        }
        let Some(number) = Number::of_text(&text[..at]) else {
            return Err(BadReceipt);
        };
        let Some(secret) = Secret::of_text(&text[at + 1..]) else {
            return Err(BadReceipt);
        };
        Ok(Receipt { number, secret })
    }

    /// The text of the receipt: its number, a hyphen, and the hyphenated secret with lower-case letters. Fails only if
    /// memory runs out.
    pub fn text(self, alloc: Global) -> Result<String, AllocError>
        ensures ok { IfOk result (λ t. string_bytes t ≡ receipt_text self) }
    {
        let secret = self.secret.text(alloc)?;
        let mut buffer = Buffer::new();
        let mut text = String::from_str(alloc, buffer.format(self.number.get()))?;
        text.push('-')?;
        text.push_str(secret.as_str())?;
        Ok(text)
    }
}

/// The index of the first hyphen, if there is one.
fn hyphen_at(text: &[u8]) -> Option<usize>
    ensures value { result ≡ position (λ b. b == 45) text.now }
{
    text.iter().position(|byte| *byte == b'-')
}
