//! Worked examples of days, ends of periods and terms, and the values of the limits.

ghost use Rattle.pawn_terms.specs.Worked.{WorkedNumbers, WorkedTexts, WorkedSixMonths, WorkedEnds, WorkedTerms};
ghost use Rattle.pawn_terms.specs.WorkedLimits.{WorkedTermLimits};

/// Examples of days, which can be looked up in a calendar.
pub fn worked_days()
    ensures numbers { WorkedNumbers }
    ensures texts { WorkedTexts }
{}

/// Examples of ends of periods; in some, the month six months later is shorter.
pub fn worked_ends()
    ensures six_months { WorkedSixMonths }
    ensures ends { WorkedEnds }
{}

/// Examples of terms at their limits and above them.
pub fn worked_terms()
    ensures terms { WorkedTerms }
{}

/// The values of the limits of days and terms.
pub fn worked_limits()
    ensures limits { WorkedTermLimits }
{}
