//! Worked examples of requests and of their parts, as proved tests.
ghost use Rattle.pawn_wire.specs.WorkedHeads.{WorkedHeads, WorkedLengths, WorkedConnections};
ghost use Rattle.pawn_wire.specs.WorkedRequests.{WorkedLimits, WorkedTargets, WorkedNoTargets, WorkedPathNumbers};
ghost use Rattle.pawn_wire.specs.WorkedRequests.{WorkedDayTexts, WorkedKeys, WorkedReceiptLists, WorkedBodies};
ghost use Rattle.pawn_wire.specs.WorkedRequests.{WorkedCommands, WorkedOrder, WorkedRequests};

/// Examples of heads, of their bodies' lengths, and of connections that close.
pub fn worked_heads()
    ensures heads { WorkedHeads }
    ensures lengths { WorkedLengths }
    ensures connections { WorkedConnections }
{}

/// The limits of a request.
pub fn worked_limits()
    ensures limits { WorkedLimits }
{}

/// Examples of targets and of what is asked at them.
pub fn worked_targets()
    ensures targets { WorkedTargets }
    ensures none { WorkedNoTargets }
{}

/// Examples of numbers and days as text.
pub fn worked_texts()
    ensures numbers { WorkedPathNumbers }
    ensures days { WorkedDayTexts }
{}

/// Examples of keys and receipts in fields.
pub fn worked_fields()
    ensures keys { WorkedKeys }
    ensures receipts { WorkedReceiptLists }
{}

/// Examples of bodies of requests.
pub fn worked_bodies()
    ensures bodies { WorkedBodies }
    ensures commands { WorkedCommands }
{}

/// Examples of whole requests, and of which of several faults is reported first.
pub fn worked_requests()
    ensures requests { WorkedRequests }
    ensures order { WorkedOrder }
{}
