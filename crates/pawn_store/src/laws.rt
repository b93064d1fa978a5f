//! Laws of stores and of their rows.
ghost use Rattle.pawn_store.specs.OtherRows.{OtherRowsStay, OtherRowsStayInRuns};
ghost use Rattle.pawn_store.specs.Running.{EmptyHostIsSound, OpenedHasAnsweredNothing};

use sqlite::Alter;

/// The host of a new store, without books, is sound.
pub fn empty_host_is_sound()
    ensures law { EmptyHostIsSound }
{}

/// A store that was just opened for a sound host has answered nothing yet. The contract of `run_over_tables` therefore
/// applies to it.
pub fn opened_has_answered_nothing<S: Alter>()
    ensures law { OpenedHasAnsweredNothing S.Store }
{}

/// No request changes a row of another book, and no run of requests on other books changes a row of this one. `F` is
/// the type of the faults of a request's bytes.
pub fn other_rows_stay<F>()
    ensures request { OtherRowsStay }
    ensures runs { OtherRowsStayInRuns F }
{}
