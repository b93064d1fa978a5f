//! Carries out requests: plans a request and saves its change.

ghost use Rattle.pawn_book.specs.Changes.{CanSave};
ghost use Rattle.pawn_book.specs.HostStep.{Host};
ghost use Rattle.pawn_book.specs.Keeping.{GoesOn, IsQuiet, OfHost};
ghost use Rattle.pawn_book.specs.Plans.{Acts, Commits, IsLeftByAct, IsLeftByCommit, MayChange};
ghost use Rattle.std.specs.Prelude.{IfSome};

use crate::change::Planned;
use crate::fault::SaveError;
use crate::keep::Keep;
use crate::planning::plan;
use crate::refusal::Refusal;
use crate::reply::Reply;
use crate::request::Request;
use pawn_pledge::{Secret, Stamp};
use std::alloc::Global;

/// Saves the change of a plan, if it has one. Refused as `Full` if the rows would be above the limit of the host, and
/// as `Memory` or `Store` if the keeper fails. After a refusal the books are as before.
pub fn commit<K: Keep>(keep: &mut K, planned: &Planned) -> Result<(), Refusal>
    requires saves { K.keeping.usable keep.old → OfHost K.keeping keep.old keep.old (λ h. IfSome planned.now.change (CanSave h)) }
    ensures on { GoesOn K.keeping keep.old keep.new }
    ensures commits { OfHost K.keeping keep.old keep.new (λ h. Commits h planned.now.change result (K.keeping.stands keep.new)) }
    ensures crash { OfHost K.keeping keep.old keep.new
        (λ h. (left : Host) → K.keeping.leaves keep.new left → IsLeftByCommit h planned.now.change (K.keeping.leaves keep.old) result left) }
    ensures steady { IsQuiet K.keeping keep.old result }
{
    match &planned.change {
        None => Ok(()),
        Some(change) => match keep.save(change) {
            Ok(()) => Ok(()),
            Err(SaveError::Full) => Err(Refusal::Full),
            Err(SaveError::Memory) => Err(Refusal::Memory),
            Err(SaveError::Store(_)) => Err(Refusal::Store),
        },
    }
}

/// Plans a request and saves its change: one step of the host. The request must be one that may change its book.
pub fn act<K: Keep>(
    alloc: Global,
    keep: &mut K,
    operator: Secret,
    stamp: &Stamp,
    request: &Request,
) -> Result<Reply, Refusal>
    requires changes { MayChange request.now.caller }
    ensures on { GoesOn K.keeping keep.old keep.new }
    ensures acts { OfHost K.keeping keep.old keep.new (λ h. Acts h operator stamp.now request.now result (K.keeping.stands keep.new)) }
    ensures crash { OfHost K.keeping keep.old keep.new
        (λ h. (left : Host) → K.keeping.leaves keep.new left → IsLeftByAct h operator stamp.now request.now (K.keeping.leaves keep.old) result left) }
    ensures steady { IsQuiet K.keeping keep.old result }
{
    let (done, reply) = {
        let planned = plan(alloc, keep, operator, stamp, request)?;
        (commit(keep, &planned), planned.reply)
    };
    done?;
    Ok(reply)
}
