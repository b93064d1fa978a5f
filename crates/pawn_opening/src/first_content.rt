//! Makes the content of a new store.
ghost use Rattle.pawn_opening.specs.Common.{state, Lends};
ghost use Rattle.pawn_opening.specs.Opened.{MakesFirstContent};
ghost use Rattle.std.specs.Prelude.{is_ok};

use crate::indexing::{Lacking, make_indexes};
use crate::laying::make_tables;
use crate::noting::note;
use crate::recognising::SCHEMA;
use sqlite::{Alter, Error, Transaction};

/// Makes the program's tables and indexes in an empty store. Notes the number of the schema, the count 0 of rows, and
/// the limit. The error is the database's own.
#[tactic(auto, using(crate::proofs::Basics::lent_then))]
pub(crate) fn make_first_content<S: Alter>(
    tx: &mut Transaction<'_, S>,
    limit: u32,
) -> Result<(), Error>
    ensures made { MakesFirstContent (state S.Store tx.old.conn.now) (state S.Store tx.new.conn.now) limit result }
    ensures lent { Lends S.Store tx.old.conn tx.new.conn (is_ok result) }
{
    make_tables(tx)?;
    note(tx, "limit", limit)?;
    note(tx, "rows", 0)?;
    note(tx, "schema", SCHEMA)?;
    make_indexes(tx, Lacking::Both)
}
