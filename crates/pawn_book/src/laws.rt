//! The laws of books, shards and slots: properties of every run of requests.

ghost use Rattle.pawn_book.specs.Laws.{BookChangesDiffer, BookEntriesActOnce, BookExtensionsActOnce};
ghost use Rattle.pawn_book.specs.Laws.{EntriesActOnceForAll, RepeatsActOnce, SameEndIsReplied};
ghost use Rattle.pawn_book.specs.Passes.{IsOne, KeepsReceipts, Pass, ReplacesNone};
ghost use Rattle.pawn_book.specs.Shards.{HandedOutAnswersAsOne, HandsAll, ShardsAnswerAsOne};
ghost use Rattle.pawn_book.specs.Slots.{BearersAddEvents, BooksAnswerAlone, EarlierReceiptsAreSpent};
ghost use Rattle.pawn_book.specs.Slots.{EqualBookTracesAnswerAlike, EqualTracesAnswerAlike, OtherBooksStay};
ghost use Rattle.pawn_book.specs.Slots.{SlotsAnswerAlone, SlotsAreHeld, SpentIsUnknown, SpentReceiptsStaySpent};
ghost use Rattle.pawn_book.specs.Slots.{TracesAreAccepted};

/// A book differs after each request that makes a change.
pub fn changes_differ()
    ensures law { BookChangesDiffer }
{}

/// A book, a version of terms, a pledge or an import is made only once, however often the request is repeated.
pub fn repeats_act_once()
    ensures law { RepeatsActOnce }
{}

/// A drawing or a repayment is entered only once under its number, however often the request is repeated and by
/// whichever caller. The law is for sound books, in which the numbers of entries have no gaps.
pub fn entries_act_once()
    ensures law { BookEntriesActOnce }
    ensures for_all { EntriesActOnceForAll }
{}

/// An extension to the present end changes nothing, so a repeated extension is made only once while its end is the
/// present one.
pub fn extensions_act_once()
    ensures same_end { SameEndIsReplied }
    ensures law { BookExtensionsActOnce }
{}

/// Each settled reply about a book is the reply of the book alone, fed its own trace. Equal traces of a book therefore
/// get equal replies, and no request changes another book. `F` is the type of the faults that a request's bytes can
/// have.
pub fn books_answer_alone<F>()
    ensures alone { BooksAnswerAlone F }
    ensures alike { EqualBookTracesAnswerAlike F }
    ensures others { OtherBooksStay }
{}

/// If each book is kept by one of several hosts, its shard, then each settled reply of a shard is the reply of a single
/// host that gets all requests, and the shard has the book in the same state as that host. This holds for every
/// assignment of books to shards, if the book is the same in both at the start and the same of its requests are settled
/// in both. `F` is the type of the faults that a request's bytes can have.
pub fn shards_answer_as_one<F>()
    ensures as_one { ShardsAnswerAsOne F }
    ensures handed { HandsAll }
    ensures handed_out { HandedOutAnswersAsOne F }
{}

/// Each settled reply to a slot's request is the reply of the slot's own machine, fed the slot's trace. Requests that
/// are not in the trace therefore have no effect on such a reply, and equal traces get equal replies. `F` is the type
/// of the faults that a request's bytes can have.
pub fn slots_answer_alone<F>()
    ensures alone { SlotsAnswerAlone F }
    ensures alike { EqualTracesAnswerAlike F }
{}

/// A slot's machine has exactly the pledges whose live receipt is in the slot, and it accepts each command of the
/// slot's trace in its turn. A bearer's command whose reply is settled is added to the trace exactly if the machine
/// accepts it with a change. `F` is the type of the faults that a request's bytes can have.
pub fn slots_are_held<F>()
    ensures held { SlotsAreHeld F }
    ensures accepted { TracesAreAccepted F }
    ensures added { BearersAddEvents F }
{}

/// A receipt that was replaced by a declaration, or surrendered on redemption, is answered from then on as one that was
/// never issued. `F` is the type of the faults that a request's bytes can have.
pub fn spent_receipts_are_unknown<F>()
    ensures earlier { EarlierReceiptsAreSpent }
    ensures stay { SpentReceiptsStaySpent F }
    ensures unknown { SpentIsUnknown }
{}

/// The laws of slots in four passes. The first three are for slots of one receipt: with requests that keep every
/// receipt as it is, then also with openings and imports, then also with declarations and redemptions. The last pass is
/// for slots of any receipts. `F` is the type of the faults that a request's bytes can have.
pub fn slots_in_passes<F>()
    ensures keeping { Pass F KeepsReceipts IsOne }
    ensures bringing { Pass F ReplacesNone IsOne }
    ensures replacing { Pass F (λ caller. Unit {0}) IsOne }
    ensures several { Pass F (λ caller. Unit {0}) (λ slot. Unit {0}) }
{}
