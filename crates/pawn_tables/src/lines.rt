//! Decodes the rows of a day's sheet.
ghost use Rattle.pawn_tables.specs.Common.{IsNumber, Each};
ghost use Rattle.pawn_tables.specs.Finding.{IsRead};
ghost use Rattle.pawn_tables.specs.Heads.{number_cells};
ghost use Rattle.pawn_tables.specs.Lines.{IsLineOf, line_cells};
ghost use Rattle.pawn_tables.specs.declared.line.Line.{Line};
ghost use Rattle.std.specs.Prelude.{◌≡◌, ℕ, List, map, ⊤};

use crate::cells::number_at;
use crate::heads::number_of;
use crate::line::Line;
use pawn_book::{KeepError, SheetPart};
use pawn_debt::Rows;
use sqlite::Row;
use std::alloc::Global;

/// The line that a row of a part encodes.
fn line_of(part: SheetPart, row: &Row) -> Result<Line, KeepError>
    ensures read { (l : Line) → IsLineOf part l → row.now ≡ line_cells part l → IsRead result l (IsNumber l.number) }
{
    let number = number_of(number_at(row, 0)?)?;
    match part {
        SheetPart::Confirmed { window } => Ok(Line { number, window }),
        SheetPart::Asked => {
            let window = number_at(row, 1)?;
            Ok(Line { number, window })
        }
        SheetPart::Ends => Ok(Line { number, window: 0 }),
    }
}

/// The lines that the rows of a part encode, in their order.
pub(crate) fn read_lines(
    alloc: Global,
    part: SheetPart,
    rows: &[Row],
) -> Result<Rows<Line>, KeepError>
    ensures read { (ls : List Line) → Each (IsLineOf part) ls → rows.now ≡ map (line_cells part) ls → IsRead result ls (Each (λ l. IsNumber l.number) ls) }
{
    let mut lines = Rows::new(alloc);
    for row in rows {
        let line = line_of(part, row)?;
        let Ok(()) = lines.push(line) else {
            return Err(KeepError::Memory);
        };
    }
    Ok(lines)
}

/// The number in the first column of each row.
pub(crate) fn read_numbers(alloc: Global, rows: &[Row]) -> Result<Rows<u64>, KeepError>
    ensures read { (ns : List ℕ) → rows.now ≡ map number_cells ns → IsRead result ns ⊤ }
{
    let mut numbers = Rows::new(alloc);
    for row in rows {
        let number = number_at(row, 0)?;
        let Ok(()) = numbers.push(number) else {
            return Err(KeepError::Memory);
        };
    }
    Ok(numbers)
}
