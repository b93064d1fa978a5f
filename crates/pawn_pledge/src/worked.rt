//! Worked examples of pledges, and the values of the limits.

ghost use Rattle.pawn_pledge.specs.Worked.{WorkedPledgeStarts, WorkedStatuses, WorkedPledgeDrawings};
ghost use Rattle.pawn_pledge.specs.Worked.{WorkedPledgeRepayments, WorkedHolds, WorkedDeclarations, WorkedAskings};
ghost use Rattle.pawn_pledge.specs.Worked.{WorkedCancellings, WorkedDecisions, WorkedRedemptions, WorkedSales};
ghost use Rattle.pawn_pledge.specs.Worked.{WorkedExtensions};
ghost use Rattle.pawn_pledge.specs.WorkedLimits.{WorkedPledgeLimits};
ghost use Rattle.pawn_pledge.specs.WorkedTexts.{WorkedSecrets, WorkedReceiptTexts};

/// Examples of new pledges, and of statuses.
pub fn worked_pledges()
    ensures starts { WorkedPledgeStarts }
    ensures statuses { WorkedStatuses }
{}

/// Examples of drawings and repayments, some of which are refused.
pub fn worked_entries()
    ensures drawings { WorkedPledgeDrawings }
    ensures repayments { WorkedPledgeRepayments }
{}

/// Examples of holds and declarations.
pub fn worked_receipts()
    ensures holds { WorkedHolds }
    ensures declarations { WorkedDeclarations }
{}

/// Examples of bookings that are asked for, cancelled, confirmed and refused.
pub fn worked_bookings()
    ensures askings { WorkedAskings }
    ensures cancellings { WorkedCancellings }
    ensures decisions { WorkedDecisions }
{}

/// Examples of redemptions and sales.
pub fn worked_closings()
    ensures redemptions { WorkedRedemptions }
    ensures sales { WorkedSales }
{}

/// Examples of extensions of a period, some of which are refused.
pub fn worked_extensions()
    ensures extensions { WorkedExtensions }
{}

/// Examples of texts of secrets and receipts.
pub fn worked_texts()
    ensures secrets { WorkedSecrets }
    ensures receipts { WorkedReceiptTexts }
{}

/// The values of the limits of a pledge's record.
pub fn worked_limits()
    ensures limits { WorkedPledgeLimits }
{}
