//! `Receipts`, the receipts that a bearer presents in one request.

ghost use Rattle.pawn_book.specs.Limits.{AreFew};
ghost use Rattle.std.specs.Prelude.{◌≡◌, ◌↔◌, IfSome, IsSome};

use crate::limits::MOST_RECEIPTS;
use pawn_pledge::Receipt;
use std::marker::Model;

/// The receipts that a bearer presents, in order: 1 to 32 of them. In contracts the value is their list.
#[derive(Drop)]
pub struct Receipts {
    items: Vec<Receipt>,
}

impl Model for Receipts {
    ghost use Rattle.pawn_book.specs.Limits.{AreFew};
    ghost use Rattle.pawn_pledge.specs.declared.receipt.Receipt.{Receipt};
    ghost use Rattle.std.specs.Prelude.{List};

    ghost Value = { List Receipt };

    ghost view = { λ r. r.items.items };

    ghost invariant = { λ r. AreFew r.items.items };
}

impl Receipts {
    /// These receipts, or `None` if their number is not 1 to 32.
    pub fn new(items: Vec<Receipt>) -> Option<Receipts>
        ensures list { IfSome result (λ r. r ≡ items.items) }
        ensures some { IsSome result ↔ AreFew items.items }
    {
        if items.is_empty() || items.len() > MOST_RECEIPTS {
            return None;
        }
        Some(Receipts { items })
    }

    /// The receipts.
    pub fn as_slice(&self) -> &[Receipt]
        ensures list { result.now ≡ self.now }
        ensures few { AreFew self.now }
    {
        self.items.as_slice()
    }
}
