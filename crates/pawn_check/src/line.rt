//! Writes the line with the counts of a checked store.
ghost use Rattle.pawn_book.specs.Keeping.{Reads};
ghost use Rattle.pawn_check.specs.Line.{WritesCounts, counts_line};
ghost use Rattle.pawn_writing.specs.Ends.{Puts, write_failed};
ghost use Rattle.std.specs.Prelude.{◌≡◌, false};

use crate::books::check;
use crate::counts::Counts;
use crate::fault::LineFault;
use itoa::Buffer;
use pawn_book::Keep;
use pawn_writing::{Writing, put_all};
use std::io::Write;

/// Writes the line `books B pledges P rows R`.
fn put_counts<W: Write>(writer: &mut Writing<W>, counts: Counts)
    ensures puts { Puts W.contents writer.old (counts_line counts) writer.new }
{
    put_all(
        writer,
        &[
            b"books ",
            Buffer::new().format(counts.books).as_bytes(),
            b" pledges ",
            Buffer::new().format(counts.pledges).as_bytes(),
            b" rows ",
            Buffer::new().format(counts.rows).as_bytes(),
            b"\n",
        ],
    );
}

/// Checks a store as `check` does, and writes the line `books B pledges P rows R`. Nothing is written if the check ends
/// with a fault.
///
/// Errors: `Check` with the fault of the check; `Write` if the writer failed.
pub fn write_counts<K: Keep, W: Write>(
    keep: &mut K,
    writer: &mut Writing<W>,
) -> Result<(), LineFault>
    requires fine { write_failed writer.old ≡ false }
    ensures writes { Reads K.keeping keep.old keep.new (λ h. WritesCounts W.contents writer.old writer.new h result) }
{
    match check(keep) {
        Ok(counts) => {
            put_counts(writer, counts);
            if writer.has_failed() {
                Err(LineFault::Write)
            } else {
                Ok(())
            }
        }
        Err(why) => Err(LineFault::Check(why)),
    }
}
