//! Recognises a store by the schema that it notes.
ghost use Rattle.pawn_opening.specs.Opened.{Recognises, StatesSchema};
ghost use Rattle.pawn_opening.specs.Refusing.{AcceptsSchema, IsNumberRead};
ghost use Rattle.sqlite.specs.Held.{state};
ghost use Rattle.std.specs.Prelude.{◌≡◌, false};

use crate::fault::{OpenFault, opening_fault};
use one_table::know_settled;
use pawn_tables::texts::READ_SCHEMA;
use sqlite::{Alter, Connection, Error, ErrorCode, Row};

/// The number of the schema that this program reads and writes.
pub const SCHEMA: u32 = 3;

/// The number in a query's answer, if the answer is a single row that begins with a number. The error is `Memory`.
fn number_of(rows: &[Row]) -> Result<Option<u64>, OpenFault>
    ensures read { IsNumberRead rows.now result }
{
    let [row] = rows else {
        return Ok(None);
    };
    match row.get(0) {
        Ok(number) => Ok(Some(number)),
        Err(Error::SqliteFailure(ErrorCode::OutOfMemory)) => Err(OpenFault::Memory),
        Err(_) => Ok(None),
    }
}

/// The number of the schema that a store notes, if it notes one. The content of the store does not change. The error is
/// `Store` or `Memory`.
pub fn schema_noted<S: Alter>(conn: &mut Connection<S>) -> Result<Option<u64>, OpenFault>
    requires rests { conn.old.in_transaction ≡ false }
    ensures states { StatesSchema (state S.Store conn.old) (state S.Store conn.new) result }
{
    know_settled(conn);
    match conn.query_all(READ_SCHEMA, &[]) {
        Ok(rows) => number_of(&rows),
        Err(Error::SqlInputError(_)) => Ok(None),
        Err(error) => Err(opening_fault(error)),
    }
}

/// Accepts the number of the program's schema. The error is `OldSchema` for that of an older schema, and `NotOurs` for
/// any other number and for none.
fn expect_ours(noted: Option<u64>) -> Result<(), OpenFault>
    ensures accepts { AcceptsSchema noted result }
{
    let Some(number) = noted else {
        return Err(OpenFault::NotOurs);
    };
    if number == u64::from(SCHEMA) {
        Ok(())
    } else if 0 < number && number < u64::from(SCHEMA) {
        Err(OpenFault::OldSchema(number as u32))
    } else {
        Err(OpenFault::NotOurs)
    }
}

/// Checks that a store, which is not empty, notes the program's schema. The errors are those of `prepare`.
pub(crate) fn recognise<S: Alter>(conn: &mut Connection<S>) -> Result<(), OpenFault>
    requires rests { conn.old.in_transaction ≡ false }
    ensures recognised { Recognises (state S.Store conn.old) (state S.Store conn.new) result }
{
    match schema_noted(conn) {
        Ok(noted) => expect_ours(noted),
        Err(why) => Err(why),
    }
}
