//! Reads which schema a store has.
ghost use Rattle.pawn_move.specs.Migrating.{KnowsSchema, StatesNumber};
ghost use Rattle.sqlite.specs.Held.{state};
ghost use Rattle.std.specs.Prelude.{◌≡◌, false};

use crate::fault::MoveFault;
use pawn_opening::{SCHEMA, schema_noted};
use sqlite::{Alter, Connection};

/// The number that a store notes, if it is from 1 to that of the program's schema. The error is `NotOurs` for 0 and for
/// none, and `NewerSchema` for a greater number.
fn known_schema(noted: Option<u64>) -> Result<u32, MoveFault>
    ensures knows { KnowsSchema noted result }
{
    let Some(number) = noted else {
        return Err(MoveFault::NotOurs);
    };
    if number == 0 {
        return Err(MoveFault::NotOurs);
    }
    if number > u64::from(SCHEMA) {
        return Err(MoveFault::NewerSchema);
    }
    Ok(number as u32)
}

/// The number of the schema that a store notes, from 1 to that of the program's. The content of the store does not
/// change.
///
/// # Errors
/// `NotOurs` for an empty store, and for one that notes no schema or the number 0. `NewerSchema` if it notes a newer
/// schema. `Store` if the store failed, and `Memory` if out of memory. It is never `Damaged`.
pub fn schema_of<S: Alter>(conn: &mut Connection<S>) -> Result<u32, MoveFault>
    requires rests { conn.old.in_transaction ≡ false }
    ensures states { StatesNumber (state S.Store conn.old) (state S.Store conn.new) result }
{
    match schema_noted(conn) {
        Ok(noted) => known_schema(noted),
        Err(why) => Err(MoveFault::of_opening(why)),
    }
}
