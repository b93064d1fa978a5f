//! Sends requests to a keeper that may change it.
use pawn_book::{Refusal, Reply, Request, Secret, Stamp, act};
use pawn_list_keeper::ListKeep;
use std::alloc::Global;

/// Returns the answer of a keeper to a request, or `None` if the request only reads.
pub fn acted(
    alloc: Global,
    keep: &mut ListKeep,
    operator: Secret,
    stamp: &Stamp,
    request: &Request,
) -> Option<Result<Reply, Refusal>> {
    if request.caller.writes() {
        Some(act(alloc, keep, operator, stamp, request))
    } else {
        None
    }
}
