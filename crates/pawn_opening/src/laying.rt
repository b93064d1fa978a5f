//! Makes the tables of a store.
ghost use Rattle.pawn_opening.specs.Common.{state, no_schema, Lends};
ghost use Rattle.pawn_opening.specs.Laying.{AddsTable, Makes};
ghost use Rattle.pawn_tables.specs.Schema.{extensions_tree, first_schema, keep_schema, second_schema, totals_tree};
ghost use Rattle.std.specs.Prelude.{is_ok};

use one_table::run;
use pawn_tables::texts::{
    MAKE_BOOKINGS, MAKE_BOOKS, MAKE_ENTRIES, MAKE_EXTENSIONS, MAKE_META, MAKE_PLEDGES,
    MAKE_SECRETS, MAKE_TERMS, MAKE_TOTALS,
};
use sqlite::{Alter, Error, Transaction};

/// Makes the tables of the first schema in an empty store, without rows.
#[tactic(auto, using(crate::proofs::Basics::lent_then))]
fn make_first_tables<S: Alter>(tx: &mut Transaction<'_, S>) -> Result<(), Error>
    ensures made { Makes (state S.Store tx.old.conn.now) (state S.Store tx.new.conn.now) result no_schema first_schema }
    ensures lent { Lends S.Store tx.old.conn tx.new.conn (is_ok result) }
{
    run(tx, MAKE_BOOKS, &[])?;
    run(tx, MAKE_TERMS, &[])?;
    run(tx, MAKE_PLEDGES, &[])?;
    run(tx, MAKE_ENTRIES, &[])?;
    run(tx, MAKE_SECRETS, &[])?;
    run(tx, MAKE_BOOKINGS, &[])?;
    run(tx, MAKE_META, &[])
}

/// Makes all tables of the program's schema in an empty store, without rows.
#[tactic(auto, using(crate::proofs::Basics::lent_then))]
pub(crate) fn make_tables<S: Alter>(tx: &mut Transaction<'_, S>) -> Result<(), Error>
    ensures made { Makes (state S.Store tx.old.conn.now) (state S.Store tx.new.conn.now) result no_schema keep_schema }
    ensures lent { Lends S.Store tx.old.conn tx.new.conn (is_ok result) }
{
    make_first_tables(tx)?;
    make_totals(tx)?;
    make_extensions(tx)
}

/// Adds the table of totals, without rows, to those of the first schema, within a borrowed transaction. The error is
/// the database's own.
pub fn make_totals<S: Alter>(tx: &mut Transaction<'_, S>) -> Result<(), Error>
    ensures made { AddsTable (state S.Store tx.old.conn.now) (state S.Store tx.new.conn.now) result first_schema second_schema totals_tree }
    ensures lent { Lends S.Store tx.old.conn tx.new.conn (is_ok result) }
{
    run(tx, MAKE_TOTALS, &[])
}

/// Adds the table of extensions, without rows, to those of the second schema, within a borrowed transaction. The error
/// is the database's own.
pub fn make_extensions<S: Alter>(tx: &mut Transaction<'_, S>) -> Result<(), Error>
    ensures made { AddsTable (state S.Store tx.old.conn.now) (state S.Store tx.new.conn.now) result second_schema keep_schema extensions_tree }
    ensures lent { Lends S.Store tx.old.conn tx.new.conn (is_ok result) }
{
    run(tx, MAKE_EXTENSIONS, &[])
}
