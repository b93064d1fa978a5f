//! Inserts an entry, a secret or an extension.
ghost use Rattle.pawn_saving.specs.RowWrites.{AddsRow};
ghost use Rattle.pawn_tables.specs.Common.{state, Lends};
ghost use Rattle.pawn_tables.specs.Rows.{entry_cells, extension_cells, secret_cells, under};
ghost use Rattle.pawn_tables.specs.Schema.{entries_tree, extensions_tree, secrets_tree};
ghost use Rattle.std.specs.Prelude.{is_ok};

use pawn_book::{Entry, Extension, Issued, KeepError};
use pawn_tables::texts::{PUT_ENTRY, PUT_EXTENSION, PUT_SECRET};
use pawn_tables::{in_32_bits, issue_number, sort_number, write};
use sqlite::{Alter, Transaction, params};

/// Inserts an entry of a pledge.
pub(crate) fn put_entry<S: Alter>(
    tx: &mut Transaction<'_, S>,
    book: u32,
    number: u32,
    entry: &Entry,
) -> Result<(), KeepError>
    ensures wrote { AddsRow (state S.Store tx.old.conn.now) (state S.Store tx.new.conn.now) result entries_tree (under book number (entry_cells entry.now)) }
    ensures lent { Lends S.Store tx.old.conn tx.new.conn (is_ok result) }
{
    let seq = in_32_bits(entry.seq)?;
    let pence = in_32_bits(entry.pence)?;
    let day = entry.day.count();
    let sort = sort_number(entry.sort);
    write(tx, PUT_ENTRY, params![book, number, seq, day, sort, pence])
}

/// Inserts a secret of a pledge at its place in the list. The first place is 1.
pub(crate) fn put_secret<S: Alter>(
    tx: &mut Transaction<'_, S>,
    book: u32,
    number: u32,
    place: u32,
    issued: &Issued,
) -> Result<(), KeepError>
    ensures wrote { AddsRow (state S.Store tx.old.conn.now) (state S.Store tx.new.conn.now) result secrets_tree
        (under book number (secret_cells place issued.now)) }
    ensures lent { Lends S.Store tx.old.conn tx.new.conn (is_ok result) }
{
    let day = issued.day.count();
    let sort = issue_number(issued.sort);
    let secret = issued.secret.word().to_be_bytes();
    write(
        tx,
        PUT_SECRET,
        params![book, number, place, day, sort, secret.as_slice()],
    )
}

/// Inserts an extension of a pledge's period at its place in the list. The first place is 1.
pub(crate) fn put_extension<S: Alter>(
    tx: &mut Transaction<'_, S>,
    book: u32,
    number: u32,
    place: u32,
    extension: &Extension,
) -> Result<(), KeepError>
    ensures wrote { AddsRow (state S.Store tx.old.conn.now) (state S.Store tx.new.conn.now) result extensions_tree
        (under book number (extension_cells place extension.now)) }
    ensures lent { Lends S.Store tx.old.conn tx.new.conn (is_ok result) }
{
    let day = extension.day.count();
    let until = extension.until.count();
    write(tx, PUT_EXTENSION, params![book, number, place, day, until])
}
