//! A law of the schemas.
ghost use Rattle.pawn_move.specs.StandsUnder.{ThirdIsOurs};

/// The third schema is the program's: tables stand for a host under it if and only if they stand for that host. A law:
/// it has no code.
pub fn the_third_is_ours()
    ensures law { ThirdIsOurs }
{}
