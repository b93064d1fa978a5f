//! Laws: properties of every pledge, whatever commands are sent.

ghost use Rattle.pawn_pledge.specs.Laws.{StartsReachable, StaysReplayable, StaysWithin, StaysReachable, AgreementStays};
ghost use Rattle.pawn_pledge.specs.Laws.{ChangesDiffer, ClosedStays, SecretsGrow, EntriesGrow, ExtensionsGrow};
ghost use Rattle.pawn_pledge.specs.Laws.{ListsGrow, EntriesActOnce, SameEndIsAnswered, ExtensionsActOnce, OneIsLive};
ghost use Rattle.pawn_pledge.specs.Laws.{NeverLiveAgain, EarlierAreSpent, BriefOwes, BriefHasStatus, BriefIsWithin};
ghost use Rattle.pawn_pledge.specs.Laws.{SecretTextsReadBack, ReceiptTextsReadBack, ReceiptTextsAreOne};

/// Every command keeps a pledge reachable, within its limits and with the same agreement. A pledge always differs after
/// a change, and no command changes a pledge that is redeemed or sold.
pub fn laws_of_steps()
    ensures starts { StartsReachable }
    ensures replayable { StaysReplayable }
    ensures within { StaysWithin }
    ensures reachable { StaysReachable }
    ensures agreement { AgreementStays }
    ensures differ { ChangesDiffer }
    ensures closed { ClosedStays }
{}

/// Commands change the lists of entries, secrets and extensions of a pledge only by adding at their ends.
pub fn laws_of_lists()
    ensures entries { EntriesGrow }
    ensures extensions { ExtensionsGrow }
    ensures all { ListsGrow }
{}

/// An entry that is sent again gets the answer of the first time and changes nothing. The same holds for an extension
/// while its end is the present one and the pledge may still be extended.
pub fn laws_of_repeats()
    ensures entries { EntriesActOnce }
    ensures same_end { SameEndIsAnswered }
    ensures extensions { ExtensionsActOnce }
{}

/// At most one receipt of a pledge is live, and one that was replaced or surrendered is never live again.
pub fn laws_of_receipts()
    ensures grow { SecretsGrow }
    ensures one { OneIsLive }
    ensures earlier { EarlierAreSpent }
    ensures never_again { NeverLiveAgain }
{}

/// A brief shows the sum owed and the status of its pledge, and is within the limits that `Brief::of_fields` checks.
pub fn laws_of_briefs()
    ensures owes { BriefOwes }
    ensures status { BriefHasStatus }
    ensures within { BriefIsWithin }
{}

/// The text of a secret or of a receipt reads back as that secret or receipt, and no text reads as two receipts.
pub fn laws_of_texts()
    ensures secrets { SecretTextsReadBack }
    ensures receipts { ReceiptTextsReadBack }
    ensures one { ReceiptTextsAreOne }
{}
