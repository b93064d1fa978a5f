//! Worked examples of the clock's days, and the limits of connections and key files, as proved tests.
ghost use Rattle.pawn_program.specs.WorkedClock.{WorkedClockDays};
ghost use Rattle.pawn_program.specs.WorkedLimits.{WorkedServingLimits};

/// Days by the clock: the first and the last second of a day, a leap day, and the first and the last day that a request
/// may have.
pub fn worked_clock()
    ensures days { WorkedClockDays }
{}

/// How many seconds a connection waits for its peer, and how many bytes of a key file are read.
pub fn worked_limits()
    ensures limits { WorkedServingLimits }
{}
