//! Worked examples of debts, and the values of the limits.

ghost use Rattle.pawn_debt.specs.Worked.{WorkedInterest, WorkedRepayments, WorkedTotals, WorkedSafeKeeping};
ghost use Rattle.pawn_debt.specs.Worked.{WorkedDrawings, WorkedFullness, WorkedStarts};
ghost use Rattle.pawn_debt.specs.WorkedLimits.{WorkedDebtLimits};

/// Examples of sums owed, which can be calculated by hand.
pub fn worked_debts()
    ensures interest { WorkedInterest }
    ensures safe_keeping { WorkedSafeKeeping }
    ensures totals { WorkedTotals }
{}

/// Examples of new debts, drawings and repayments, some of which are refused.
pub fn worked_entries()
    ensures starts { WorkedStarts }
    ensures drawings { WorkedDrawings }
    ensures repayments { WorkedRepayments }
    ensures fullness { WorkedFullness }
{}

/// The values of the limits of debts.
pub fn worked_limits()
    ensures limits { WorkedDebtLimits }
{}
