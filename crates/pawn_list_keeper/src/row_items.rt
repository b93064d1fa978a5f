//! The rows of a book's pledges in the list, passed to a visitor.
ghost use Rattle.pawn_book.specs.Items.{booking_items, entry_items, extension_items, pledge_item, items_of_pledge};
ghost use Rattle.pawn_book.specs.Items.{rows_of_pledges, secret_items};
ghost use Rattle.pawn_book.specs.declared.items.RowItem.{RowItem};
ghost use Rattle.pawn_book.specs.Visits.{call_end};
ghost use Rattle.pawn_list_keeper.specs.Common.{IsShare, Visits};
ghost use Rattle.std.specs.Prelude.{◌≡◌, ◌++◌, IfOk, OnOk};

use crate::list_reads::hand_over;
use pawn_book::{
    Booking, Entry, Extension, Flow, Issued, Number, Pledge, PledgeItem, RowItem, Visitor,
};
use std::alloc::{AllocError, Global};

/// A pledge's own row. The only error is out of memory.
fn own_item(pledge: &Pledge) -> Result<RowItem, AllocError>
    ensures value { IfOk result (λ row. row ≡ RowItem.Pledge (pledge_item pledge.now)) }
{
    let agreement = pledge.agreement();
    let standing = pledge.standing();
    let opening = agreement.opening.copy()?;
    Ok(RowItem::Pledge(PledgeItem {
        number: agreement.number,
        opening,
        taken: agreement.taken,
        version: agreement.version,
        ends: u64::from(pledge.ends().count()),
        held: standing.held,
        last: standing.last,
        closing: standing.closing,
    }))
}

/// Adds the rows of a pledge's secrets. The only error is out of memory.
fn push_secrets(
    rows: &mut Vec<RowItem>,
    number: Number,
    secrets: &[Issued],
) -> Result<(), AllocError>
    ensures value { OnOk result (rows.new.items ≡ rows.old.items ++ secret_items number 1 secrets.now) }
{
    for index in 0..secrets.len() {
        rows.push(RowItem::Secret {
            number,
            place: index as u64 + 1,
            issued: secrets[index],
        })?;
    }
    Ok(())
}

/// Adds the rows of a pledge's entries. The only error is out of memory.
fn push_entries(
    rows: &mut Vec<RowItem>,
    number: Number,
    entries: &[Entry],
) -> Result<(), AllocError>
    ensures value { OnOk result (rows.new.items ≡ rows.old.items ++ entry_items number entries.now) }
{
    for entry in entries {
        rows.push(RowItem::Entry {
            number,
            entry: *entry,
        })?;
    }
    Ok(())
}

/// Adds the rows of a pledge's extensions. The only error is out of memory.
fn push_extensions(
    rows: &mut Vec<RowItem>,
    number: Number,
    extensions: &[Extension],
) -> Result<(), AllocError>
    ensures value { OnOk result (rows.new.items ≡ rows.old.items ++ extension_items number 1 extensions.now) }
{
    for index in 0..extensions.len() {
        rows.push(RowItem::Extension {
            number,
            place: index as u64 + 1,
            extension: extensions[index],
        })?;
    }
    Ok(())
}

/// Adds the row of a pledge's booking, if it has one. The only error is out of memory.
fn push_booking(
    rows: &mut Vec<RowItem>,
    number: Number,
    booking: Option<Booking>,
) -> Result<(), AllocError>
    ensures value { OnOk result (rows.new.items ≡ rows.old.items ++ booking_items number booking) }
{
    if let Some(booking) = booking {
        rows.push(RowItem::Booking { number, booking })?;
    }
    Ok(())
}

/// The rows of a pledge. The only error is out of memory.
fn pledge_items(alloc: Global, pledge: &Pledge) -> Result<Vec<RowItem>, AllocError>
    ensures value { IfOk result (λ rows. rows.items ≡ items_of_pledge pledge.now) }
{
    let number = pledge.agreement().number;
    let mut rows = Vec::new(alloc);
    rows.push(own_item(pledge)?)?;
    push_secrets(&mut rows, number, pledge.secrets())?;
    push_entries(&mut rows, number, pledge.entries())?;
    push_extensions(&mut rows, number, pledge.extensions())?;
    push_booking(&mut rows, number, pledge.standing().booking)?;
    Ok(rows)
}

/// Passes the rows of pledges to the visitor until it answers `Stop`. The only error is out of memory.
pub(crate) fn hand_rows<V: Visitor<RowItem>>(
    alloc: Global,
    pledges: &[Pledge],
    visitor: &mut V,
) -> Result<(), AllocError>
    ensures visits { Visits V.step visitor.old visitor.new (λ given flow. IsShare given flow (call_end result) (rows_of_pledges pledges.now)) }
{
    for pledge in pledges {
        let rows = pledge_items(alloc, pledge)?;
        match hand_over(&rows, visitor) {
            Flow::Go => {}
            Flow::Stop => return Ok(()),
        }
    }
    Ok(())
}
