//! Laws of the reading of requests and of targets.
ghost use Rattle.pawn_wire.specs.Laws.{RequestsAreWithin, ReadingIsUnique, NumbersAreSaid, DaysAreSaid};
ghost use Rattle.pawn_wire.specs.Laws.{TargetsAreFound};

/// Bytes can be read in one way only, as one request or one fault, and each part of a request is within its limits.
pub fn laws_of_readings()
    ensures unique { ReadingIsUnique }
    ensures within { RequestsAreWithin }
{}

/// A number or a day in a target has exactly one spelling, and each target of the service's table is found.
pub fn targets_have_one_spelling()
    ensures numbers { NumbersAreSaid }
    ensures days { DaysAreSaid }
    ensures targets { TargetsAreFound }
{}
