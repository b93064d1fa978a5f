//! Passes items that were read to a visitor.
ghost use Rattle.pawn_table_keeper.specs.Common.{with_head, HandsOver, item_of};
ghost use Rattle.pawn_tables.specs.Kinds.{own_items};
ghost use Rattle.std.specs.Prelude.{map};

use pawn_book::{Flow, RowItem, SheetItem, SheetPart, Visitor};
use pawn_tables::Line;

/// Passes the items to the visitor in order, until it answers `Stop`. Returns the visitor's last answer, or `Go` if
/// there are no items.
pub(super) fn hand_all<T, V: Visitor<T>>(items: &[T], visitor: &mut V) -> Flow
    ensures hands { HandsOver V.step visitor.old items.now result visitor.new }
{
    for item in items {
        match visitor.visit(item) {
            Flow::Go => {}
            Flow::Stop => return Flow::Stop,
        }
    }
    Flow::Go
}

/// Passes those of the rows that belong to pledge `number` to the visitor until it answers `Stop`.
pub(super) fn hand_items<V: Visitor<RowItem>>(
    number: u32,
    items: &[RowItem],
    visitor: &mut V,
) -> Flow
    ensures hands { HandsOver V.step visitor.old (own_items number items.now) result visitor.new }
{
    for item in items {
        if item.number().get() == number {
            match visitor.visit(item) {
                Flow::Go => {}
                Flow::Stop => return Flow::Stop,
            }
        }
    }
    Flow::Go
}

/// Passes the items of a part's lines to the visitor until it answers `Stop`.
pub(super) fn hand_lines<V: Visitor<SheetItem>>(
    part: SheetPart,
    lines: &[Line],
    visitor: &mut V,
) -> Flow
    ensures hands { HandsOver V.step visitor.old (map (item_of part) lines.now) result visitor.new }
{
    for line in lines {
        let item = line.item(part);
        match visitor.visit(&item) {
            Flow::Go => {}
            Flow::Stop => return Flow::Stop,
        }
    }
    Flow::Go
}

/// Passes the part's heading, which has the number of the lines, and then the lines' items, until the visitor answers
/// `Stop`. The caller passes all lines of the part.
pub(super) fn hand_whole<V: Visitor<SheetItem>>(
    part: SheetPart,
    lines: &[Line],
    visitor: &mut V,
) -> Flow
    ensures hands { HandsOver V.step visitor.old (with_head part (map (item_of part) lines.now)) result visitor.new }
{
    let heading = part.heading(lines.len() as u64);
    match visitor.visit(&heading) {
        Flow::Go => hand_lines(part, lines, visitor),
        Flow::Stop => Flow::Stop,
    }
}
