//! The lines of a statement: one function for each kind of line.
//!
//! Each function writes its line, and allocates no memory.
ghost use Rattle.pawn_view.specs.Text.{text_line, number_line, day_line, amount_line, kind_line, extended_line};
ghost use Rattle.pawn_view.specs.Text.{status_line, owed_lines, held_line, booking_line, redeemed_line, sold_line};
ghost use Rattle.pawn_view.specs.Text.{closing_line, entry_line, date_text};
ghost use Rattle.pawn_writing.specs.Ends.{Puts};
ghost use Rattle.std.specs.Prelude.{◌≡◌, ◌++◌, codes};

use crate::money::pence_text;
use itoa::Buffer;
use pawn_book::{Booking, Closing, Day, Entry, Extension, Kind, Owing, Status};
use pawn_writing::{Writing, put, put_all};
use std::io::Write;

/// Returns a day as text, such as `2024-01-31`.
#[tactic(auto, unfolding(crate::specs::Text::date_text))]
fn date_text(day: Day) -> [u8; 10]
    ensures answer { result ≡ date_text day }
{
    day.text()
}

/// Writes a line: a label and a text.
pub(crate) fn put_text<W: Write>(writer: &mut Writing<W>, label: &[u8], text: &str)
    ensures puts { Puts W.contents writer.old (text_line label.now text.now) writer.new }
{
    put_all(writer, &[label, text.as_bytes(), b"\n"]);
}

/// Writes a line: a label and a number.
pub(crate) fn put_number<W: Write>(writer: &mut Writing<W>, label: &[u8], number: u32)
    ensures puts { Puts W.contents writer.old (number_line label.now number) writer.new }
{
    put_all(
        writer,
        &[label, Buffer::new().format(number).as_bytes(), b"\n"],
    );
}

/// Writes a line: a label and a day.
pub(crate) fn put_day<W: Write>(writer: &mut Writing<W>, label: &[u8], day: Day)
    ensures puts { Puts W.contents writer.old (day_line label.now day) writer.new }
{
    put_all(writer, &[label, &date_text(day), b"\n"]);
}

/// Writes a line: a label and an amount. The amount is passed in pence and written in pounds, such as `100.00`.
pub(crate) fn put_amount<W: Write>(writer: &mut Writing<W>, label: &[u8], pence: u64)
    ensures puts { Puts W.contents writer.old (amount_line label.now pence) writer.new }
{
    put_all(
        writer,
        &[
            label,
            Buffer::new().format(pence / 100).as_bytes(),
            &pence_text(pence),
            b"\n",
        ],
    );
}

/// Writes the kind of a pledge: `Kind fixed 100.00` with its sum, or `Kind running 100.00` with its limit.
pub(crate) fn put_kind<W: Write>(writer: &mut Writing<W>, kind: Kind)
    ensures puts { Puts W.contents writer.old (kind_line kind) writer.new }
{
    match kind {
        Kind::Fixed(sum) => put_amount(writer, b"Kind fixed ", sum),
        Kind::Running(limit) => put_amount(writer, b"Kind running ", limit),
    }
}

/// Writes an extension, such as `Extended 2024-07-31 to 2024-09-30`.
pub(crate) fn put_extended<W: Write>(writer: &mut Writing<W>, extension: &Extension)
    ensures puts { Puts W.contents writer.old (extended_line extension.now) writer.new }
{
    put_all(
        writer,
        &[
            b"Extended ",
            &date_text(extension.day),
            b" to ",
            &date_text(extension.until),
            b"\n",
        ],
    );
}

/// Returns the line for a status.
fn status_line(status: Status) -> &'static [u8]
    ensures answer { result.now ≡ status_line status }
{
    match status {
        Status::Inside => b"Status inside\n",
        Status::Grace => b"Status grace\n",
        Status::Realisable => b"Status realisable\n",
        Status::Passed => b"Status passed\n",
        Status::Redeemed => b"Status redeemed\n",
        Status::Sold => b"Status sold\n",
    }
}

/// Writes a status, such as `Status inside`.
pub(crate) fn put_status<W: Write>(writer: &mut Writing<W>, status: Status)
    ensures puts { Puts W.contents writer.old (status_line status) writer.new }
{
    put(writer, status_line(status));
}

/// Writes the lines `Principal 100.00`, `Charges 0.00` and `Owing 100.00`.
fn put_owing<W: Write>(writer: &mut Writing<W>, owing: &Owing)
    ensures puts { Puts W.contents writer.old
        (amount_line (codes "Principal ") owing.now.principal
        ++ (amount_line (codes "Charges ") owing.now.charges
        ++ amount_line (codes "Owing ") owing.now.total)) writer.new }
{
    put_amount(writer, b"Principal ", owing.principal);
    put_amount(writer, b"Charges ", owing.charges);
    put_amount(writer, b"Owing ", owing.total);
}

/// Writes the three lines of what is owed. Writes nothing if the article has passed to the broker.
pub(crate) fn put_owed<W: Write>(writer: &mut Writing<W>, status: Status, owing: &Owing)
    ensures puts { Puts W.contents writer.old (owed_lines status owing.now) writer.new }
{
    match status {
        Status::Passed => {}
        _ => put_owing(writer, owing),
    }
}

/// Returns the line that states whether the pledge is on hold.
fn held_line(held: bool) -> &'static [u8]
    ensures answer { result.now ≡ held_line held }
{
    match held {
        true => b"Held yes\n",
        false => b"Held no\n",
    }
}

/// Writes `Held yes` or `Held no`.
pub(crate) fn put_held<W: Write>(writer: &mut Writing<W>, held: bool)
    ensures puts { Puts W.contents writer.old (held_line held) writer.new }
{
    put(writer, held_line(held));
}

/// Writes a booking, such as `Booking 2024-03-04 3 asked`, or `Booking none`.
pub(crate) fn put_booking<W: Write>(writer: &mut Writing<W>, booking: Option<Booking>)
    ensures puts { Puts W.contents writer.old (booking_line booking) writer.new }
{
    match booking {
        None => put(writer, b"Booking none\n"),
        Some(booking) => put_all(
            writer,
            &[
                b"Booking ",
                &date_text(booking.day),
                b" ",
                Buffer::new().format(booking.window).as_bytes(),
                b" ",
                booking.state.word().as_bytes(),
                b"\n",
            ],
        ),
    }
}

/// Writes a redemption, such as `Redeemed 2024-08-01 paid 75.01`.
fn put_redeemed<W: Write>(writer: &mut Writing<W>, day: Day, paid: u64)
    ensures puts { Puts W.contents writer.old (redeemed_line day paid) writer.new }
{
    put_all(
        writer,
        &[
            b"Redeemed ",
            &date_text(day),
            b" paid ",
            Buffer::new().format(paid / 100).as_bytes(),
            &pence_text(paid),
            b"\n",
        ],
    );
}

/// Writes a sale, such as `Sold 2024-08-01 net 90.00 surplus 0.00 shortfall 10.00`.
#[tactic(auto, using(std::proofs::Common::append_assoc))]
fn put_sold<W: Write>(writer: &mut Writing<W>, day: Day, net: u64, surplus: u64, shortfall: u64)
    ensures puts { Puts W.contents writer.old (sold_line day net surplus shortfall) writer.new }
{
    put_all(
        writer,
        &[
            b"Sold ",
            &date_text(day),
            b" net ",
            Buffer::new().format(net / 100).as_bytes(),
            &pence_text(net),
            b" surplus ",
            Buffer::new().format(surplus / 100).as_bytes(),
            &pence_text(surplus),
            b" shortfall ",
            Buffer::new().format(shortfall / 100).as_bytes(),
            &pence_text(shortfall),
            b"\n",
        ],
    );
}

/// Writes the line of a closed pledge, and nothing for an open one. `total` is the sum owed on the closing day, in
/// pence.
pub(crate) fn put_closing<W: Write>(writer: &mut Writing<W>, closing: Closing, total: u64)
    ensures puts { Puts W.contents writer.old (closing_line closing total) writer.new }
{
    match closing {
        Closing::Open => {}
        Closing::Redeemed { day, paid } => put_redeemed(writer, day, paid),
        Closing::Sold { day, net } => {
            put_sold(
                writer,
                day,
                net,
                net.saturating_sub(total),
                total.saturating_sub(net),
            )
        }
    }
}

/// Writes an entry, such as `Entry 1 2024-01-31 repay 10.00`.
pub(crate) fn put_entry<W: Write>(writer: &mut Writing<W>, entry: &Entry)
    ensures puts { Puts W.contents writer.old (entry_line entry.now) writer.new }
{
    put_all(
        writer,
        &[
            b"Entry ",
            Buffer::new().format(entry.seq).as_bytes(),
            b" ",
            &date_text(entry.day),
            b" ",
            entry.sort.word().as_bytes(),
            b" ",
            Buffer::new().format(entry.pence / 100).as_bytes(),
            &pence_text(entry.pence),
            b"\n",
        ],
    );
}
