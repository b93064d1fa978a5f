//! Writes a book's sheet for a day.
ghost use Rattle.pawn_view.specs.Common.{IsQuietView, IsSteady, Puts, PutsShare, Reads, call_end, get, pledges_of};
ghost use Rattle.pawn_view.specs.Common.{write_failed};
ghost use Rattle.pawn_view.specs.Sheets.{PutsItem, asked_sheet_line, day_lines, sheet_line, sheet_of, window_line};
ghost use Rattle.pawn_view.specs.Shown.{Shows};
ghost use Rattle.pawn_view.specs.Text.{number_line};
ghost use Rattle.std.specs.Prelude.{◌≡◌, false, true, IsErrOf};

use crate::lines::{put_day, put_number};
use crate::statements::result_of_text;
use itoa::Buffer;
use pawn_book::{Capacity, Day, Flow, Keep, KeepError, Number, SheetItem, Visitor};
use pawn_writing::{ViewFault, Writing, put_all};
use std::io::Write;

/// Writes a line: a label and a count.
fn put_count<W: Write>(writer: &mut Writing<W>, label: &[u8], count: u64)
    ensures puts { Puts W.contents writer.old (number_line label.now count) writer.new }
{
    put_all(
        writer,
        &[label, Buffer::new().format(count).as_bytes(), b"\n"],
    );
}

/// Writes how many visits are confirmed in a window, such as `Window 3 confirmed 1 of 2`.
fn put_window<W: Write>(writer: &mut Writing<W>, capacity: Capacity, window: u64, count: u64)
    ensures puts { Puts W.contents writer.old (window_line capacity window count) writer.new }
{
    put_all(
        writer,
        &[
            b"Window ",
            Buffer::new().format(window).as_bytes(),
            b" confirmed ",
            Buffer::new().format(count).as_bytes(),
            b" of ",
            Buffer::new().format(capacity.get()).as_bytes(),
            b"\n",
        ],
    );
}

/// Writes a booking that is asked for, such as `Pledge 1 window 3`.
fn put_asked<W: Write>(writer: &mut Writing<W>, number: Number, window: u64)
    ensures puts { Puts W.contents writer.old (asked_sheet_line number window) writer.new }
{
    put_all(
        writer,
        &[
            b"Pledge ",
            Buffer::new().format(number.get()).as_bytes(),
            b" window ",
            Buffer::new().format(window).as_bytes(),
            b"\n",
        ],
    );
}

/// Writes the line of an item of a day's sheet.
fn put_item<W: Write>(writer: &mut Writing<W>, capacity: Capacity, item: &SheetItem)
    ensures puts { Puts W.contents writer.old (sheet_line capacity item.now) writer.new }
{
    match *item {
        SheetItem::Window { window, count } => put_window(writer, capacity, window, count),
        SheetItem::Confirmed(number) => put_number(writer, b"Pledge ", number.get()),
        SheetItem::AskedHead(count) => put_count(writer, b"Asked ", count),
        SheetItem::Asked { number, window } => put_asked(writer, number, window),
        SheetItem::EndsHead(count) => put_count(writer, b"Ends ", count),
        SheetItem::Ends(number) => put_number(writer, b"Pledge ", number.get()),
    }
}

/// A visitor that writes a line for each item of a day's sheet. `capacity` is the book's limit on confirmed visits in a
/// window.
#[derive(Drop)]
struct SheetLines<'a, W> {
    writer: &'a mut Writing<W>,
    capacity: Capacity,
}

impl<'a, W: Write> Visitor<SheetItem> for SheetLines<'a, W> {
    ghost step = { λ v item flow w. PutsItem W.contents v item flow w };

    fn visit(&mut self, item: &SheetItem) -> Flow {
        put_item(self.writer, self.capacity, item);
        self.writer.flow()
    }
}

impl<'a, W: Write> SheetLines<'a, W> {
    /// Writes the lines of a day's sheet after its heading.
    fn put_day<K: Keep>(&mut self, keep: &mut K, book: Number, day: Day) -> Result<(), KeepError>
        ensures shares { Reads K.keeping keep.old keep.new (λ h. PutsShare W.contents self.old.writer.now
            (day_lines self.old.capacity day (pledges_of (get h.books book))) (call_end result) self.new.writer.now) }
        ensures same_writer { self.new.writer.ghost_name ≡ self.old.writer.ghost_name }
        ensures steady { IsSteady K.keeping keep.old result }
    {
        keep.sheet_each(book, day, self)
    }
}

/// Writes a book's sheet for a day: the confirmed visits of each window, the bookings that are asked for, and the
/// pledges whose period ends on the day. The keeper's content stays as it is.
///
/// The caller ensures that the writer has not failed before. Errors: `Unknown` if there is no such book; `Memory` and
/// `Store` if the keeper does not answer; `Write` only if the writer failed during the call.
pub fn show_day_sheet<K: Keep, W: Write>(
    keep: &mut K,
    book: Number,
    day: Day,
    writer: &mut Writing<W>,
) -> Result<(), ViewFault>
    requires fine { write_failed writer.old ≡ false }
    ensures shows { Reads K.keeping keep.old keep.new (λ h. Shows W.contents writer.old (sheet_of h book day) result writer.new) }
    ensures write { IsErrOf result ViewFault.Write → write_failed writer.new ≡ true }
    ensures steady { IsQuietView K.keeping keep.old result }
{
    let Some(head) = keep.book_head(book)? else {
        return Err(ViewFault::Unknown);
    };
    put_day(writer, b"Day sheet ", day);
    let mut lines = SheetLines {
        writer,
        capacity: head.capacity,
    };
    let done = lines.put_day(keep, book, day);
    result_of_text(done, writer)
}
