//! Laws of sessions, runs, slots, shards and crashes.
ghost use Rattle.pawn_host.specs.Crashes.{CrashLeavesWhole, CrashesCompose};
ghost use Rattle.pawn_host.specs.Laws.{EqualBookTracesReplyAlike, EqualTracesReplyAlike, FaultIsExact, ItemsAreUnique};
ghost use Rattle.pawn_host.specs.Laws.{NothingIsWanted, AmbiguousEnds, RunReadsEvents, RunsAnswerAlone, RunsCompose};
ghost use Rattle.pawn_host.specs.Laws.{SplitBegins, SplitEndsEarly, SplitIsFront, SplitIsUnique};
ghost use Rattle.pawn_host.specs.Shards.{HandedSplits, RequestsArePlaced, ShardsReplyAsOne};

use pawn_book::Keep;

/// A stream splits into requests in one way only. Its ending is determined too, unless the rest is the beginning of a
/// head that can't be completed within the limit of fields: such a rest may count as a cut or as a bad head.
pub fn split_is_unique()
    ensures law { SplitIsUnique }
{}

/// If the rest of a stream may count both as a cut and as a bad head, it ends inside a target, or it can become a head
/// with too many fields.
pub fn ambiguous_ends()
    ensures law { AmbiguousEnds }
{}

/// If a split ends before the limit of requests, the rest does not begin with a whole request.
pub fn split_ends_early()
    ensures law { SplitEndsEarly }
{}

/// If a stream begins with some requests, they are the first of its split. If a further request follows them, the split
/// has at least one more.
pub fn whole_requests_begin_a_split()
    ensures law { SplitBegins }
{}

/// The requests of a split, joined together, are a prefix of the stream. There are at most 1,000.
pub fn split_is_front()
    ensures law { SplitIsFront }
{}

/// The stamps and bytes of a run, and which of its items were refused because memory ran out or the store failed,
/// determine all items of the run.
pub fn items_are_unique()
    ensures law { ItemsAreUnique }
{}

/// Only the stamp and the mark of each item matter: runs that agree in these lead to the same host and the same
/// replies.
pub fn run_reads_events()
    ensures law { RunReadsEvents }
{}

/// Two runs one after the other are one run, if the second starts from the host after the first.
pub fn runs_compose()
    ensures law { RunsCompose }
{}

/// No more bytes are wanted after a request that closes the connection, or after 1,000 requests.
pub fn nothing_is_wanted()
    ensures law { NothingIsWanted }
{}

/// A rest that can still become a head within the limits is no fault. A rest that can't is a bad head.
pub fn fault_is_exact()
    ensures law { FaultIsExact }
{}

/// Each settled answer of a run is the one that its slot, or its book, would get if it were the only one that is
/// served. Slots with equal traces get the same answer to the same request, and so do books that were the same at the
/// start.
pub fn runs_answer_alone()
    ensures alone { RunsAnswerAlone }
    ensures alike { EqualTracesReplyAlike }
    ensures books_alike { EqualBookTracesReplyAlike }
{}

/// If each request of a stream is passed to the shard of its book, shards answer as one host that gets all requests.
/// Each settled answer of a shard is, byte for byte, the settled answer of that host, if the book was the same in both
/// at the start and has the same trace in both. The requests that a shard gets are again a stream of whole requests, in
/// the order of their arrival.
pub fn shards_answer_as_one()
    ensures placed { RequestsArePlaced }
    ensures as_one { ShardsReplyAsOne }
    ensures splits { HandedSplits }
{}

/// A crash after a run leaves the host after all items, possibly with one more request done, if a crash before the run
/// could leave only the host at its start. The answer to that one request was that memory ran out or the store failed.
/// Two runs one after the other leave what they would leave as one run.
pub fn crash_leaves_whole<K: Keep>()
    ensures law { CrashLeavesWhole K.keeping }
    ensures compose { CrashesCompose K.keeping }
{}
