//! The import of rows into an empty book.
ghost use Rattle.pawn_book.specs.Plans.{Acts, IsLeftByAct};
ghost use Rattle.pawn_csv.specs.Common.{GoesOn, Host, IsQuiet, OfHost, ℕ};
ghost use Rattle.pawn_csv.specs.Imports.{import_of};

use pawn_book::{
    BrokerRequest, Caller, Keep, Number, Refusal, ReplayableRows, Reply, Request, Secret, Stamp,
    act,
};
use std::alloc::Global;

/// Fills an empty book with these terms and pledges. `book_key` is the book's key, and `import_key` is the
/// import's own key. A second import under the same `import_key` gets the reply to the first one, whatever its rows
/// are.
///
/// Refusals, in this order: `NoSuchBook` if there is no such book or `book_key` is not its key; `BookNotEmpty` if the
/// book has terms, pledges or another import; `Full` if the rows of all books would exceed the limit; `Memory` and
/// `Store` as the keeper answers. After a refusal nothing has changed.
pub fn import<K: Keep>(
    alloc: Global,
    keep: &mut K,
    stamp: &Stamp,
    book: Number,
    book_key: Secret,
    import_key: Secret,
    rows: ReplayableRows,
) -> Result<Reply, Refusal>
    ensures on { GoesOn K.keeping keep.old keep.new }
    ensures acts { (operator : ℕ) → OfHost K.keeping keep.old keep.new
        (λ h. Acts h operator stamp.now (import_of book book_key import_key rows) result (K.keeping.stands keep.new)) }
    ensures crash { (operator : ℕ) → OfHost K.keeping keep.old keep.new (λ h. (left : Host) → K.keeping.leaves keep.new left
        → IsLeftByAct h operator stamp.now (import_of book book_key import_key rows) (K.keeping.leaves keep.old) result left) }
    ensures steady { IsQuiet K.keeping keep.old result }
{
    let asked = BrokerRequest::Import { import_key, rows };
    let caller = Caller::Broker {
        key: book_key,
        asked,
    };
    // Any key will do as the operator's, because only the book's own key is checked.
    act(alloc, keep, book_key, stamp, &Request { book, caller })
}
