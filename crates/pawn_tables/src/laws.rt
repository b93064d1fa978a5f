//! A law of the tables.
ghost use Rattle.pawn_tables.specs.OneHost.{StandForOne};

/// Tables stand for at most one host. A law: it has no code.
pub fn tables_stand_for_one()
    ensures law { StandForOne }
{}
