//! Reads the receipts that the fields of a head present.
ghost use Rattle.pawn_wire.specs.Chain.{Says};
ghost use Rattle.pawn_wire.specs.Fields.{pairs_of};
ghost use Rattle.pawn_wire.specs.Receipts.{all_said, one_said, receipt_said, receipt_values, receipts_said};
ghost use Rattle.pawn_wire.specs.Types.{BadReceipt, Memory};
ghost use Rattle.std.specs.Prelude.{◌≡◌, ◌⊎◌, Some, None, MatchResult};

use crate::fields::{Fields, Found};
use pawn_book::{MOST_RECEIPTS, Receipt, Receipts};
use pawn_reply::WireFault;
use std::alloc::Global;

/// The name of the field that presents a receipt, in lower case.
const FIELD: &[u8] = b"pledge-receipt";

/// Returns the receipt that a text writes: a number, a hyphen and a secret.
fn receipt_of(text: &[u8]) -> Option<Receipt>
    ensures value { result ≡ receipt_said text.now }
{
    match Receipt::of_text(text) {
        Ok(receipt) => Some(receipt),
        Err(_) => None,
    }
}

/// Returns the receipts in the fields `Pledge-Receipt`. Fails with `BadReceipt` if one is malformed.
fn collect(alloc: Global, fields: &Fields<'_>) -> Result<Vec<Receipt>, WireFault>
    ensures all { MatchResult result (λ v. all_said (receipt_values (pairs_of fields.now)) ≡ Some v.items)
        (λ e. (e ≡ Memory) ⊎ ((e ≡ BadReceipt) × (all_said (receipt_values (pairs_of fields.now)) ≡ None))) }
{
    let mut receipts = Vec::new(alloc);
    for field in fields.spans {
        if fields.is_named(field, FIELD) {
            let Some(receipt) = receipt_of(field.value.of(fields.bytes)) else {
                return Err(WireFault::BadReceipt);
            };
            receipts.push(receipt)?;
        }
    }
    Ok(receipts)
}

/// Returns the 1 to 32 receipts that the fields present. Fails with `NoReceipt` if there is none, and with
/// `TooManyReceipts` if there are more.
pub(crate) fn receipts(alloc: Global, fields: &Fields<'_>) -> Result<Receipts, WireFault>
    ensures value { Says result (receipts_said (receipt_values (pairs_of fields.now))) }
{
    let count = fields.count(FIELD);
    if count == 0 {
        return Err(WireFault::NoReceipt);
    }
    if count > MOST_RECEIPTS {
        return Err(WireFault::TooManyReceipts);
    }
    let receipts = collect(alloc, fields)?;
    Receipts::new(receipts).ok_or(WireFault::BadReceipt)
}

/// Returns the only receipt that the fields present. Fails with `NoReceipt` if there is none, and with
/// `TooManyReceipts` if there are several.
pub(crate) fn one(fields: &Fields<'_>) -> Result<Receipt, WireFault>
    ensures value { result ≡ one_said (receipt_values (pairs_of fields.now)) }
{
    match fields.find(FIELD) {
        Found::One(value) => receipt_of(value).ok_or(WireFault::BadReceipt),
        Found::Missing => Err(WireFault::NoReceipt),
        Found::Several => Err(WireFault::TooManyReceipts),
    }
}
