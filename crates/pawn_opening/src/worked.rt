//! A worked example of the indexes.
ghost use Rattle.pawn_opening.specs.WorkedIndexes.{WorkedByEnd, WorkedByTime};

/// The names and columns of the program's two indexes. A law: it has no code.
pub fn worked_indexes()
    ensures by_end { WorkedByEnd }
    ensures by_time { WorkedByTime }
{}
