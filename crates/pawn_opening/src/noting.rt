//! Writes a note of a store.
ghost use Rattle.pawn_opening.specs.Common.{state, Lends, meta_row};
ghost use Rattle.pawn_opening.specs.Laying.{Notes};
ghost use Rattle.std.specs.Prelude.{is_ok};

use one_table::run;
use pawn_tables::texts::PUT_NOTE;
use sqlite::{Alter, Error, Transaction, params};

/// Inserts a row into `meta`: a name, and the number that is noted under it. The error is the database's own.
pub(crate) fn note<S: Alter>(
    tx: &mut Transaction<'_, S>,
    name: &str,
    value: u32,
) -> Result<(), Error>
    ensures noted { Notes (state S.Store tx.old.conn.now) (state S.Store tx.new.conn.now) result (meta_row name.now value) }
    ensures lent { Lends S.Store tx.old.conn tx.new.conn (is_ok result) }
{
    run(tx, PUT_NOTE, params![name, value])
}
