//! The stored count of rows and the stored limit.
ghost use Rattle.pawn_saving.specs.Common.{with_rows, ListsOurs};
ghost use Rattle.pawn_saving.specs.Counted.{Counts};
ghost use Rattle.pawn_tables.specs.Common.{state, HasCleanDisk, Lends, Rests, Listed};
ghost use Rattle.pawn_tables.specs.Meta.{meta_row, meta_rows, other_rows};
ghost use Rattle.pawn_tables.specs.Schema.{meta_tree};
ghost use Rattle.std.specs.Prelude.{◌≡◌, ◌∷◌, ◌+◌, ◌<◌, ◌^◌, ℕ, IfOk, IsTrue, codes, is_ok};

use one_table::ask;
use pawn_book::KeepError;
use pawn_tables::texts::{ADD_ROWS, READ_LIMIT};
use pawn_tables::{DATABASE_FAILED, in_32_bits, keeper_error};
use sqlite::{Alter, Transaction, params};

/// The stored limit on counted rows. `DATABASE_FAILED` if it is missing or not less than 2^32.
fn limit_in<S: Alter>(tx: &mut Transaction<'_, S>) -> Result<u32, KeepError>
    ensures found { HasCleanDisk (state S.Store tx.new.conn.now) → IsTrue (state S.Store tx.old.conn.now).in_transaction
        → (listed : Listed) (counted limit : ℕ) → listed meta_tree ≡ meta_rows counted limit → ListsOurs (state S.Store tx.old.conn.now).now listed
        → IfOk result (λ n. (n ≡ limit) × Rests (state S.Store tx.old.conn.now) (state S.Store tx.new.conn.now)) }
    ensures in_range { IfOk result (λ n. n < 2 ^ 32) }
    ensures lent { Lends S.Store tx.old.conn tx.new.conn (is_ok result) }
{
    let rows = match ask(tx, READ_LIMIT, &[]) {
        Ok(rows) => rows,
        Err(error) => return Err(keeper_error(error)),
    };
    let [row, ..] = rows.as_slice() else {
        return Err(DATABASE_FAILED);
    };
    match row.get::<u64>(0) {
        Ok(limit) => in_32_bits(limit),
        Err(error) => Err(keeper_error(error)),
    }
}

/// Adds to the stored count of rows, and returns the new count. The error is `Memory` or `Database`.
fn count_up<S: Alter>(tx: &mut Transaction<'_, S>, by: u32) -> Result<u64, KeepError>
    ensures wrote { HasCleanDisk (state S.Store tx.new.conn.now) → IsTrue
        (state S.Store tx.old.conn.now).in_transaction
        → (listed : Listed) (counted limit : ℕ) → listed meta_tree ≡ meta_rows counted limit
        → counted + by < 2 ^ 63 → ListsOurs (state S.Store tx.old.conn.now).now listed
        → IfOk result (λ now. (now ≡ counted + by) × ListsOurs
        (state S.Store tx.new.conn.now).now
        (with_rows listed meta_tree (meta_row (codes "rows") now ∷ other_rows limit))) }
    ensures lent { Lends S.Store tx.old.conn tx.new.conn (is_ok result) }
{
    let row = match tx.query_row(ADD_ROWS, params![by]) {
        Ok(row) => row,
        Err(error) => return Err(keeper_error(error)),
    };
    match row.get::<u64>(0) {
        Ok(now) => Ok(now),
        Err(error) => Err(keeper_error(error)),
    }
}

/// Adds to the stored count of rows. Returns whether the new count is within the limit.
#[tactic(auto, using(crate::proofs::Basics::lent_then))]
pub(crate) fn count_within<S: Alter>(
    tx: &mut Transaction<'_, S>,
    by: u32,
) -> Result<bool, KeepError>
    ensures counts { Counts (state S.Store tx.old.conn.now) (state S.Store tx.new.conn.now) by result }
    ensures lent { Lends S.Store tx.old.conn tx.new.conn (is_ok result) }
{
    let limit = limit_in(tx)?;
    let counted = count_up(tx, by)?;
    Ok(counted <= limit as u64)
}
