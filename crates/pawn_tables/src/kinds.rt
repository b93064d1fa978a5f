//! The kinds of a pledge's rows, and the decoding of the rows of a kind.
ghost use Rattle.pawn_book.specs.Items.{item_number};
ghost use Rattle.pawn_book.specs.declared.items.RowItem.{RowItem};
ghost use Rattle.pawn_tables.specs.Common.{Booking, Each, Entry, Extension, IsDayNumber, IsWord, Issued, PledgeItem};
ghost use Rattle.pawn_tables.specs.Common.{Row as Cells};
ghost use Rattle.pawn_tables.specs.Entries.{IsEntryDecodable};
ghost use Rattle.pawn_tables.specs.Finding.{Finds, IsRead};
ghost use Rattle.pawn_tables.specs.Kinds.{CanBeRead, AreCellsDecodable, IsItemDecodable, IsOwnDecodable, IsRowOf, cells_of, item_cells, row_kind};
ghost use Rattle.pawn_tables.specs.Kinds.{number_place, own_cells, range_text};
ghost use Rattle.pawn_tables.specs.Rows.{booking_cells, entry_cells, extension_cells, secret_cells};
ghost use Rattle.std.specs.Prelude.{◌≡◌, ◌++◌, ◌∷◌, [], ℕ, List, OnOk, map};

use crate::cells::number_at;
use crate::heads::number_of;
use crate::list_decoding::{entry_of, extension_of, issued_of};
use crate::pledge_decoding::pledge_row;
use crate::records::booking_of;
use crate::texts::{
    READ_BOOKINGS_RANGE, READ_ENTRIES_RANGE, READ_EXTENSIONS_RANGE, READ_PLEDGES_RANGE,
    READ_SECRETS_RANGE,
};
use pawn_book::{KeepError, Number, PledgeItem, RowItem};
use sqlite::Row;
use std::alloc::{AllocError, Global};

/// The kinds of a pledge's rows, in the order of an export.
#[derive(Clone, Copy)]
pub enum RowKind {
    Pledge,
    Secret,
    Entry,
    Extension,
    Booking,
}

impl RowKind {
    /// The query for the rows of this kind of a range of pledges.
    pub(crate) fn range_query(self) -> &'static str
        ensures value { result.now ≡ range_text self }
    {
        match self {
            RowKind::Pledge => READ_PLEDGES_RANGE,
            RowKind::Secret => READ_SECRETS_RANGE,
            RowKind::Entry => READ_ENTRIES_RANGE,
            RowKind::Extension => READ_EXTENSIONS_RANGE,
            RowKind::Booking => READ_BOOKINGS_RANGE,
        }
    }

    /// The column of that query that has the number of the pledge.
    fn number_column(self) -> usize
        ensures value { result ≡ number_place self }
    {
        match self {
            RowKind::Pledge => 14,
            RowKind::Secret | RowKind::Entry => 4,
            RowKind::Extension | RowKind::Booking => 3,
        }
    }
}

/// A pledge's own row.
fn own_item(alloc: Global, number: Number, row: &Row) -> Result<RowItem, KeepError>
    ensures read { (q : PledgeItem) (more : Cells) → q.number ≡ number → row.now ≡ own_cells q ++ more → IsRead result (RowItem.Pledge q) (IsOwnDecodable q) }
{
    let pledge = pledge_row(alloc, row)?;
    Ok(RowItem::Pledge(PledgeItem {
        number,
        opening: pledge.opening,
        taken: pledge.taken,
        version: pledge.version,
        ends: pledge.ends,
        held: pledge.held,
        last: pledge.last,
        closing: pledge.closing,
    }))
}

/// The row of a secret.
fn secret_item(number: Number, row: &Row) -> Result<RowItem, KeepError>
    ensures read { (place : ℕ) (i : Issued) (more : Cells) → IsWord i.secret → row.now ≡ secret_cells place i ++ more
        → IsRead result (RowItem.Secret number place i) (IsDayNumber i.day) }
{
    let place = number_at(row, 0)?;
    let issued = issued_of(row)?;
    Ok(RowItem::Secret {
        number,
        place,
        issued,
    })
}

/// The row of an entry.
fn entry_item(number: Number, row: &Row) -> Result<RowItem, KeepError>
    ensures read { (e : Entry) (more : Cells) → row.now ≡ entry_cells e ++ more → IsRead result (RowItem.Entry number e) (IsEntryDecodable e) }
{
    let entry = entry_of(row)?;
    Ok(RowItem::Entry { number, entry })
}

/// The row of an extension.
fn extension_item(number: Number, row: &Row) -> Result<RowItem, KeepError>
    ensures read { (place : ℕ) (e : Extension) (more : Cells) → row.now ≡ extension_cells place e ++ more
        → IsRead result (RowItem.Extension number place e) (IsDayNumber e.day × IsDayNumber e.until) }
{
    let place = number_at(row, 0)?;
    let extension = extension_of(row)?;
    Ok(RowItem::Extension {
        number,
        place,
        extension,
    })
}

/// The row of a booking.
fn booking_item(number: Number, row: &Row) -> Result<RowItem, KeepError>
    ensures read { (k : Booking) (more : Cells) → row.now ≡ booking_cells k ++ more → IsRead result (RowItem.Booking number k) (IsDayNumber k.day) }
{
    let booking = booking_of(row)?;
    Ok(RowItem::Booking { number, booking })
}

/// The row of this kind of pledge `number`.
fn item_of(alloc: Global, kind: RowKind, number: Number, row: &Row) -> Result<RowItem, KeepError>
    ensures read { (i : RowItem) (more : Cells) → row_kind i ≡ kind → item_number i ≡ number → CanBeRead i → row.now ≡ item_cells i ++ more
        → IsRead result i (AreCellsDecodable i) }
{
    match kind {
        RowKind::Pledge => own_item(alloc, number, row),
        RowKind::Secret => secret_item(number, row),
        RowKind::Entry => entry_item(number, row),
        RowKind::Extension => extension_item(number, row),
        RowKind::Booking => booking_item(number, row),
    }
}

/// The number of the pledge: the one that is given, or else that of the row.
fn pledge_number(given: &Option<Number>, kind: RowKind, row: &Row) -> Result<Number, KeepError>
    ensures read { (i : RowItem) → IsRowOf kind given.now i → row.now ≡ cells_of given.now i → IsRead result (item_number i) (IsItemDecodable i) }
{
    match given {
        Some(number) => Ok(*number),
        None => number_of(number_at(row, kind.number_column())?),
    }
}

/// The row of this kind. Its pledge's number is given, or else it is in the row's last column.
fn item_at(
    alloc: Global,
    kind: RowKind,
    given: &Option<Number>,
    row: &Row,
) -> Result<RowItem, KeepError>
    ensures read { (i : RowItem) → IsRowOf kind given.now i → row.now ≡ cells_of given.now i → IsRead result i (IsItemDecodable i) }
{
    let number = pledge_number(given, kind, row)?;
    item_of(alloc, kind, number, row)
}

/// The rows of this kind, in their order. The number of their pledge is given, or else each has it in its last column.
pub(crate) fn read_items(
    alloc: Global,
    kind: RowKind,
    given: &Option<Number>,
    rows: &[Row],
) -> Result<Vec<RowItem>, KeepError>
    ensures read { (is : List RowItem) → Each (IsRowOf kind given.now) is → rows.now ≡ map (cells_of given.now) is
        → Finds result (λ x. x.items ≡ is) (Each IsItemDecodable is → ⊥) }
{
    let mut items = Vec::new(alloc);
    for row in rows {
        add_item(alloc, kind, given, row, &mut items)?;
    }
    Ok(items)
}

/// Adds the row of this kind. Its pledge's number is given, or else it is in the row's last column.
fn add_item(
    alloc: Global,
    kind: RowKind,
    given: &Option<Number>,
    row: &Row,
    items: &mut Vec<RowItem>,
) -> Result<(), KeepError>
    ensures read { (i : RowItem) → IsRowOf kind given.now i → row.now ≡ cells_of given.now i
        → Finds result (λ u. items.new.items ≡ items.old.items ++ i ∷ []) (IsItemDecodable i → ⊥) }
{
    let item = item_at(alloc, kind, given, row)?;
    match push_item(items, item) {
        Ok(()) => Ok(()),
        Err(_) => Err(KeepError::Memory),
    }
}

/// Adds a row at the end. The only error is out of memory.
fn push_item(items: &mut Vec<RowItem>, item: RowItem) -> Result<(), AllocError>
    ensures value { OnOk result (items.new.items ≡ items.old.items ++ item ∷ []) }
{
    items.push(item)?;
    Ok(())
}
