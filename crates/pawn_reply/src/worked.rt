//! Worked examples of replies, as a proved test.
ghost use Rattle.pawn_reply.specs.WorkedReplies.{WorkedAnswers, WorkedFaults, WorkedRefusals, WorkedReplyStatuses};

/// Examples of statuses and of whole replies.
pub fn worked_replies()
    ensures statuses { WorkedReplyStatuses }
    ensures refusals { WorkedRefusals }
    ensures faults { WorkedFaults }
    ensures answers { WorkedAnswers }
{}
