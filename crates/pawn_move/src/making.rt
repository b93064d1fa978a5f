//! Makes the tables and indexes that an older store lacks, and notes the new schema.
ghost use Rattle.pawn_move.specs.Moving.{Finishes, NotesProgram};
ghost use Rattle.pawn_opening.specs.Common.{state, Lends};
ghost use Rattle.pawn_opening.specs.Indexing.{AddsIndexes};
ghost use Rattle.pawn_opening.specs.Laying.{AddsTable};
ghost use Rattle.pawn_tables.specs.Common.{NoRecord};
ghost use Rattle.pawn_tables.specs.Schema.{extensions_tree, first_schema, keep_schema, second_schema, totals_tree};
ghost use Rattle.std.specs.Prelude.{◌≢◌, Ok, Err, is_ok};
ghost use Rattle.pawn_book.specs.declared.fault.KeepError.TheVariants as Keeper;

use pawn_book::KeepError;
use pawn_opening::{Lacking, SCHEMA};
use pawn_tables::texts::SET_SCHEMA;
use pawn_tables::{keeper_error, write};
use sqlite::{Alter, Transaction, params};

/// Adds the table of totals, without rows, to those of the first schema.
pub(crate) fn make_totals<S: Alter>(tx: &mut Transaction<'_, S>) -> Result<(), KeepError>
    ensures made { AddsTable (state S.Store tx.old.conn.now) (state S.Store tx.new.conn.now) result first_schema second_schema totals_tree }
    ensures no_row { result ≢ Err (Keeper.Store NoRecord) }
    ensures lent { Lends S.Store tx.old.conn tx.new.conn (is_ok result) }
{
    match pawn_opening::make_totals(tx) {
        Ok(()) => Ok(()),
        Err(error) => Err(keeper_error(error)),
    }
}

/// Adds the table of extensions, without rows, to those of the second schema.
pub(crate) fn make_extensions<S: Alter>(tx: &mut Transaction<'_, S>) -> Result<(), KeepError>
    ensures made { AddsTable (state S.Store tx.old.conn.now) (state S.Store tx.new.conn.now) result second_schema keep_schema extensions_tree }
    ensures no_row { result ≢ Err (Keeper.Store NoRecord) }
    ensures lent { Lends S.Store tx.old.conn tx.new.conn (is_ok result) }
{
    match pawn_opening::make_extensions(tx) {
        Ok(()) => Ok(()),
        Err(error) => Err(keeper_error(error)),
    }
}

/// Notes the number of the program's schema.
fn note_schema<S: Alter>(tx: &mut Transaction<'_, S>) -> Result<(), KeepError>
    ensures noted { NotesProgram (state S.Store tx.old.conn.now) (state S.Store tx.new.conn.now) result }
    ensures no_row { result ≢ Err (Keeper.Store NoRecord) }
    ensures lent { Lends S.Store tx.old.conn tx.new.conn (is_ok result) }
{
    write(tx, SET_SCHEMA, params![SCHEMA])
}

/// Makes the given indexes. The program's tables must exist.
fn make_indexes<S: Alter>(tx: &mut Transaction<'_, S>, which: Lacking) -> Result<(), KeepError>
    ensures adds { AddsIndexes which (state S.Store tx.old.conn.now) (state S.Store tx.new.conn.now) result }
    ensures no_row { result ≢ Err (Keeper.Store NoRecord) }
    ensures lent { Lends S.Store tx.old.conn tx.new.conn (is_ok result) }
{
    match pawn_opening::make_indexes(tx, which) {
        Ok(()) => Ok(()),
        Err(error) => Err(keeper_error(error)),
    }
}

/// Notes the number of the program's schema, and makes those of its indexes that the store lacks.
#[tactic(auto, using(crate::proofs::Basics::lent_then))]
pub(crate) fn finish<S: Alter>(
    tx: &mut Transaction<'_, S>,
    lacking: Option<Lacking>,
) -> Result<(), KeepError>
    ensures finishes { Finishes lacking (state S.Store tx.old.conn.now) (state S.Store tx.new.conn.now) result }
    ensures no_row { result ≢ Err (Keeper.Store NoRecord) }
    ensures lent { Lends S.Store tx.old.conn tx.new.conn (is_ok result) }
{
    note_schema(tx)?;
    match lacking {
        Some(which) => make_indexes(tx, which),
        None => Ok(()),
    }
}
