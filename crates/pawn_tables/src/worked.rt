//! A worked example of the tables.
ghost use Rattle.pawn_tables.specs.WorkedTables.{WorkedTables};

/// The rows of a host with one book, in which a ring is pawned. A law: it has no code.
pub fn worked_tables()
    ensures tables { WorkedTables }
{}
