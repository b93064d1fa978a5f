//! The limits of a session, as a proved test.
ghost use Rattle.pawn_host.specs.WorkedLimits.{WorkedSessionLimits};

/// The limits of a session, as numbers.
pub fn worked_limits()
    ensures limits { WorkedSessionLimits }
{}
