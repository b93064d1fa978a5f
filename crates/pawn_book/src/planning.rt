//! Plans of requests.
ghost use Rattle.pawn_book.specs.BookStep.{book_step};
ghost use Rattle.pawn_book.specs.Keeping.{IsQuiet, Reads};
ghost use Rattle.pawn_book.specs.Plans.{MayChange, Plans};
ghost use Rattle.pawn_book.specs.Sound.{IsSound};
ghost use Rattle.std.specs.FinMap.{get};

use crate::change::Planned;
use crate::commands::{plan_number, plan_receipt};
use crate::gates::gate;
use crate::import_plans::plan_import;
use crate::keep::Keep;
use crate::openings::plan_pledge;
use crate::refusal::Refusal;
use crate::request::{BearerRequest, BrokerRequest, Caller, Request};
use crate::set_up::{plan_book, plan_terms};
use pawn_pledge::{Secret, Stamp};
use std::alloc::Global;

/// Plans a request: its reply, and the change that it makes, if it makes one. Planning itself changes nothing. The plan
/// has no change exactly if the request would change nothing. The request must be one that may change its book.
pub fn plan<K: Keep>(
    alloc: Global,
    keep: &mut K,
    operator: Secret,
    stamp: &Stamp,
    request: &Request,
) -> Result<Planned, Refusal>
    requires changes { MayChange request.now.caller }
    ensures reads { Reads K.keeping keep.old keep.new
        (λ h. IsSound h → Plans h request.now.book (book_step (get h.books request.now.book) operator request.now.book stamp.now request.now.caller) result) }
    ensures steady { IsQuiet K.keeping keep.old result }
{
    match &request.caller {
        Caller::Operator { key, new_book } => {
            if *key == operator {
                plan_book(keep, request.book, new_book)
            } else {
                Err(Refusal::NotOperator)
            }
        }
        Caller::Broker { key, asked } => {
            let head = gate(keep, request.book, *key)?;
            match asked {
                BrokerRequest::PutTerms(new_terms) => {
                    plan_terms(keep, request.book, &head, new_terms)
                }
                BrokerRequest::TakePledge(opening) => {
                    plan_pledge(alloc, keep, request.book, &head, opening, stamp)
                }
                BrokerRequest::OnPledge { number, command } => {
                    let command = command.command();
                    plan_number(keep, request.book, &head, *number, stamp, &command)
                }
                BrokerRequest::Import { import_key, rows } => {
                    plan_import(request.book, &head, *import_key, rows)
                }
            }
        }
        Caller::Bearer(BearerRequest::OnPledge { receipt, command }) => {
            let command = command.command();
            plan_receipt(keep, request.book, receipt, stamp, &command)
        }
        // The contract excludes requests that only show something.
        Caller::Viewer { .. } | Caller::Bearer(BearerRequest::Present(_)) => unreachable!(),
    }
}
