//! The law of calendars.

ghost use Rattle.pawn_terms.specs.Calendar.{AgreesWithLibrary};

/// The calendar of `specs/Calendar.antt` agrees with that of `jiff_core`: months have the same lengths, and days from
/// 2000 on have the same numbers.
pub fn law_of_calendars()
    ensures agrees { AgreesWithLibrary }
{}
