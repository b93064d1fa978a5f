//! Reads the part of a pledge's row that its debt depends on, for the migration of older schemas.
#![tactic(auto, using(crate::proofs::StatementFinds::unread_debts))]

ghost use Rattle.pawn_tables.specs.Common.{get, state, IsRequestDay, PledgeValue, pledge_in, IsUnsoundAt, Lends};
ghost use Rattle.pawn_tables.specs.Finding.{FindsOf, IsRead};
ghost use Rattle.pawn_tables.specs.PledgeRows.{IsCreditDecodable, stored_credit};
ghost use Rattle.pawn_tables.specs.Rows.{at_most_one, credit_cells};
ghost use Rattle.pawn_tables.specs.StandsFor.{ListDebts};
ghost use Rattle.std.specs.Prelude.{◌≡◌, Option, IfSome, is_ok, option_map};

use crate::cells::{NO_RECORD, day_of, number_at, optional_at, optional_request_day};
use crate::queries::run_query;
use crate::records::kind_of;
use crate::texts::READ_CREDIT;
use pawn_book::{KeepError, Kind, RequestDay};
use sqlite::{Alter, Row, Transaction, params};

/// The part of what was agreed on a pledge that its debt depends on.
#[derive(Clone, Copy)]
pub struct Credit {
    pub kind: Kind,
    pub taken: RequestDay,
    pub agreed: Option<RequestDay>,
    pub version: u64,
}

/// The day with this number. `NoRecord` if it is not a day that a request may name.
fn request_day(number: u64) -> Result<RequestDay, KeepError>
    ensures read { IsRead result number (IsRequestDay number) }
{
    match RequestDay::of_day(day_of(number)?) {
        Ok(day) => Ok(day),
        Err(_) => Err(NO_RECORD),
    }
}

/// The credit that a row has.
fn credit_of(row: &Row) -> Result<Credit, KeepError>
    ensures read { (p : PledgeValue) → row.now ≡ credit_cells p → IsRead result (stored_credit p) (IsCreditDecodable p) }
{
    let number = number_at(row, 0)?;
    let credit = number_at(row, 1)?;
    let kind = kind_of(number, credit)?;
    let day = number_at(row, 2)?;
    let taken = request_day(day)?;
    let agreed = optional_request_day(optional_at(row, 3)?)?;
    let version = number_at(row, 4)?;
    Ok(Credit {
        kind,
        taken,
        agreed,
        version,
    })
}

/// The credit that the first row has, if there is a row.
fn first_credit(rows: &[Row]) -> Result<Option<Credit>, KeepError>
    ensures read { (p : Option PledgeValue) → rows.now ≡ at_most_one credit_cells p → IsRead result (option_map stored_credit p) (IfSome p IsCreditDecodable) }
{
    let [row, ..] = rows else {
        return Ok(None);
    };
    Ok(Some(credit_of(row)?))
}

/// The part of what was agreed on a pledge that its debt depends on, if there is such a pledge. The tables of
/// books, terms, pledges and entries must list the host; the others may hold anything. The error is `NoRecord` only if
/// the book is not sound.
pub fn credit_in<S: Alter>(
    tx: &mut Transaction<'_, S>,
    book: u32,
    number: u32,
) -> Result<Option<Credit>, KeepError>
    ensures finds { FindsOf ListDebts (IsUnsoundAt book) (state S.Store tx.old.conn.now) (state S.Store tx.new.conn.now) result
        (λ h x. x ≡ option_map stored_credit (pledge_in (get h.books book) number)) }
    ensures lent { Lends S.Store tx.old.conn tx.new.conn (is_ok result) }
{
    let rows = run_query(tx, READ_CREDIT, params![book, number])?;
    first_credit(&rows)
}
