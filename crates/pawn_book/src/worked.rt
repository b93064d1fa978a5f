//! Worked examples of slots, imports, versions of terms, pledges that are taken and shards, and the values of the limits.

ghost use Rattle.pawn_book.specs.WorkedImports.{WorkedImports};
ghost use Rattle.pawn_book.specs.WorkedLimits.{WorkedBookLimits};
ghost use Rattle.pawn_book.specs.WorkedShards.{WorkedShards};
ghost use Rattle.pawn_book.specs.WorkedSlots.{WorkedSlots};
ghost use Rattle.pawn_book.specs.WorkedTakings.{WorkedTakings};
ghost use Rattle.pawn_book.specs.WorkedVersions.{WorkedVersions};

/// The example of a pledge whose receipt is replaced twice, with the trace of each slot.
pub fn worked_slots()
    ensures slots { WorkedSlots }
{}

/// The example of a book that an import fills, with the answers to further imports.
pub fn worked_imports()
    ensures imports { WorkedImports }
{}

/// The example of two books on two shards: the requests and replies of each shard, compared with one host that has both
/// books.
pub fn worked_shards()
    ensures shards { WorkedShards }
{}

/// The answers of a book to new versions of its terms, with their refusals in order.
pub fn worked_versions()
    ensures versions { WorkedVersions }
{}

/// The number of a book's next pledge, with its refusals in order.
pub fn worked_takings()
    ensures takings { WorkedTakings }
{}

/// The values of the limits of books.
pub fn worked_limits()
    ensures limits { WorkedBookLimits }
{}
