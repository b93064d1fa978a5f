//! The JSON bodies of replies to commands.
ghost use Rattle.pawn_reply.specs.Common.{day_text, receipt_text, sort_text, state_text};
ghost use Rattle.pawn_reply.specs.Done.{entered_text, held_text, declared_text, booked_text, redeemed_text, sold_text};
ghost use Rattle.pawn_reply.specs.Done.{extended_text, commanded_text};
ghost use Rattle.std.specs.Prelude.{◌≡◌, IfOk, string_bytes};

use pawn_book::{Booking, Day, Done, Entry, Number, Receipt};
use std::alloc::{AllocError, Global};
use std::str::from_utf8;

/// Returns a day as text, such as `2024-01-31`.
fn day_text(alloc: Global, day: Day) -> Result<String, AllocError>
    ensures text { IfOk result (λ s. string_bytes s ≡ day_text day) }
{
    let bytes = day.text();
    String::from_str(alloc, from_utf8(&bytes).unwrap())
}

/// Returns the body for an entry, from its parts as texts. The amount is in pence.
fn entered_text(
    alloc: Global,
    day: &str,
    pence: u64,
    seq: u64,
    sort: &str,
) -> Result<String, AllocError>
    ensures text { IfOk result (λ s. string_bytes s ≡ entered_text day.now pence seq sort.now) }
{
    format!(in alloc; "{{\"day\":\"{day}\",\"pence\":{pence},\"seq\":{seq},\"sort\":\"{sort}\"}}")
}

/// Returns the body for an entry that was made.
fn entry_body(alloc: Global, entry: Entry) -> Result<String, AllocError>
    ensures text { IfOk result (λ s. string_bytes s ≡ entered_text (day_text entry.day) entry.pence entry.seq (sort_text entry.sort)) }
{
    let day = day_text(alloc, entry.day)?;
    entered_text(
        alloc,
        day.as_str(),
        entry.pence,
        entry.seq,
        entry.sort.word(),
    )
}

/// Returns the body that states whether the pledge is on hold.
fn bar_body(alloc: Global, barred: bool) -> Result<String, AllocError>
    ensures text { IfOk result (λ s. string_bytes s ≡ held_text barred) }
{
    let text = if barred {
        "{\"held\":true}"
    } else {
        "{\"held\":false}"
    };
    String::from_str(alloc, text)
}

/// Returns the body for a new receipt, from its text.
fn declared_text(alloc: Global, receipt: &str) -> Result<String, AllocError>
    ensures text { IfOk result (λ s. string_bytes s ≡ declared_text receipt.now) }
{
    format!(in alloc; "{{\"receipt\":\"{receipt}\"}}")
}

/// Returns the body for a new receipt.
fn receipt_body(alloc: Global, receipt: Receipt) -> Result<String, AllocError>
    ensures text { IfOk result (λ s. string_bytes s ≡ declared_text (receipt_text receipt)) }
{
    let text = receipt.text(alloc)?;
    declared_text(alloc, text.as_str())
}

/// Returns the body for a booking, from its parts as texts.
fn booked_text(alloc: Global, state: &str, day: &str, window: u64) -> Result<String, AllocError>
    ensures text { IfOk result (λ s. string_bytes s ≡ booked_text state.now day.now window) }
{
    format!(in alloc; "{{\"booking\":\"{state}\",\"day\":\"{day}\",\"window\":{window}}}")
}

/// Returns the body for a booking: its state, its day and its window.
fn booking_body(alloc: Global, booking: Booking) -> Result<String, AllocError>
    ensures text { IfOk result (λ s. string_bytes s ≡ booked_text (state_text booking.state) (day_text booking.day) booking.window) }
{
    let day = day_text(alloc, booking.day)?;
    booked_text(alloc, booking.state.word(), day.as_str(), booking.window)
}

/// Returns the body for a redemption, from the sum paid in pence and the day as text.
fn redeemed_text(alloc: Global, paid: u64, day: &str) -> Result<String, AllocError>
    ensures text { IfOk result (λ s. string_bytes s ≡ redeemed_text paid day.now) }
{
    format!(in alloc; "{{\"paid\":{paid},\"redeemed\":\"{day}\"}}")
}

/// Returns the body for a redemption: the sum that was paid, in pence, and the day.
fn redemption_body(alloc: Global, day: Day, paid: u64) -> Result<String, AllocError>
    ensures text { IfOk result (λ s. string_bytes s ≡ redeemed_text paid (day_text day)) }
{
    let day = day_text(alloc, day)?;
    redeemed_text(alloc, paid, day.as_str())
}

/// Returns the body for a sale: the net proceeds, the shortfall and the surplus, in pence.
fn sale_body(alloc: Global, net: u64, shortfall: u64, surplus: u64) -> Result<String, AllocError>
    ensures text { IfOk result (λ s. string_bytes s ≡ sold_text net shortfall surplus) }
{
    format!(in alloc; "{{\"net\":{net},\"shortfall\":{shortfall},\"surplus\":{surplus}}}")
}

/// Returns the body for an extension, from the day as text.
fn extended_text(alloc: Global, until: &str) -> Result<String, AllocError>
    ensures text { IfOk result (λ s. string_bytes s ≡ extended_text until.now) }
{
    format!(in alloc; "{{\"ends\":\"{until}\"}}")
}

/// Returns the body for an extension: the day on which the period now ends.
fn extension_body(alloc: Global, until: Day) -> Result<String, AllocError>
    ensures text { IfOk result (λ s. string_bytes s ≡ extended_text (day_text until)) }
{
    let day = day_text(alloc, until)?;
    extended_text(alloc, day.as_str())
}

/// Returns the body that states what a command did to the pledge of this number.
pub(crate) fn done_body(alloc: Global, number: Number, done: Done) -> Result<String, AllocError>
    ensures text { IfOk result (λ s. string_bytes s ≡ commanded_text number done) }
{
    match done {
        Done::Entered(entry) => entry_body(alloc, entry),
        Done::Held(barred) => bar_body(alloc, barred),
        Done::Declared(secret) => receipt_body(alloc, Receipt { number, secret }),
        Done::Booked(booking) => booking_body(alloc, booking),
        Done::Redeemed { day, paid } => redemption_body(alloc, day, paid),
        Done::Sold {
            net,
            surplus,
            shortfall,
        } => sale_body(alloc, net, shortfall, surplus),
        Done::Extended { until } => extension_body(alloc, until),
    }
}
