//! The JSON bodies of replies.
ghost use Rattle.pawn_reply.specs.Bodies.{book_text, filled_text, opened_text, refusal_text, version_text};
ghost use Rattle.pawn_reply.specs.Types.{Row, Total};
ghost use Rattle.std.specs.Prelude.{◌≡◌, IfOk, Some, string_bytes};

use crate::detail::Detail;
use std::alloc::{AllocError, Global};

/// Returns the body that states the number of the book that was made.
pub(crate) fn book(alloc: Global, book: u32) -> Result<String, AllocError>
    ensures text { IfOk result (λ s. string_bytes s ≡ book_text book) }
{
    format!(in alloc; "{{\"book\":{book}}}")
}

/// Returns the body that states the version of the terms that were put.
pub(crate) fn version(alloc: Global, version: u64) -> Result<String, AllocError>
    ensures text { IfOk result (λ s. string_bytes s ≡ version_text version) }
{
    format!(in alloc; "{{\"version\":{version}}}")
}

/// Returns the body that states how many pledges were imported.
pub(crate) fn filled(alloc: Global, pledges: u64) -> Result<String, AllocError>
    ensures text { IfOk result (λ s. string_bytes s ≡ filled_text pledges) }
{
    format!(in alloc; "{{\"imported\":{pledges}}}")
}

/// Returns the body for a new pledge: its number and its first receipt.
pub(crate) fn opening(alloc: Global, number: u32, receipt: &str) -> Result<String, AllocError>
    ensures text { IfOk result (λ s. string_bytes s ≡ opened_text number receipt.now) }
{
    format!(in alloc; "{{\"number\":{number},\"receipt\":\"{receipt}\"}}")
}

/// Returns the body for a refusal or a fault: its code and name, and the sum owing or the row of a text, if it has one.
pub(crate) fn refusal(
    alloc: Global,
    code: u16,
    name: &str,
    detail: Option<Detail>,
) -> Result<String, AllocError>
    ensures text { IfOk result (λ s. string_bytes s ≡ refusal_text code name.now detail) }
{
    match detail {
        Some(Detail::Total(total)) => refusal_with_total(alloc, code, name, total),
        Some(Detail::Row(row)) => refusal_with_row(alloc, code, name, row),
        None => format!(in alloc; "{{\"code\":{code},\"name\":\"{name}\"}}"),
    }
}

/// Returns the body for a refusal with the sum owing, in pence.
fn refusal_with_total(
    alloc: Global,
    code: u16,
    name: &str,
    total: u64,
) -> Result<String, AllocError>
    ensures text { IfOk result (λ s. string_bytes s ≡ refusal_text code name.now (Some (Total total))) }
{
    format!(in alloc; "{{\"code\":{code},\"name\":\"{name}\",\"total\":{total}}}")
}

/// Returns the body for a fault at a row of a text; the first row is row 1.
fn refusal_with_row(alloc: Global, code: u16, name: &str, row: u64) -> Result<String, AllocError>
    ensures text { IfOk result (λ s. string_bytes s ≡ refusal_text code name.now (Some (Row row))) }
{
    format!(in alloc; "{{\"code\":{code},\"name\":\"{name}\",\"row\":{row}}}")
}
