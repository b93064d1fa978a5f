//! Laws of books' texts and of their rows.
ghost use Rattle.pawn_csv.specs.Laws.{WritableBooksFit, FirstFaultsAreOne, FirstFaultsExcludeBooks, RowsHaveOneSpelling};
ghost use Rattle.pawn_csv.specs.Laws.{TextsAreRead, TextsAreReadAs, TextsHoldOneBook, TextsOfHostsAreRead};
ghost use Rattle.pawn_csv.specs.Layout.{LayoutsAreTaken, NotReplayableIsOfNoBook, RefusedAreNoFront, TakenAreLaidOut};
ghost use Rattle.pawn_csv.specs.Layout.{TooManyIsAboveALimit};

/// The text that is written for a book holds that book; in particular for each book of a sound host. A text that holds
/// a book is accepted to its end, and read as that book.
pub fn laws_of_texts()
    ensures fits { WritableBooksFit }
    ensures read { TextsAreRead }
    ensures hosts { TextsOfHostsAreRead }
    ensures taken { TextsAreReadAs }
{}

/// Two rows with the same columns are equal.
pub fn rows_have_one_spelling()
    ensures law { RowsHaveOneSpelling }
{}

/// A text can be read in one way only: as one book, or with one first fault.
pub fn texts_have_one_reading()
    ensures faults { FirstFaultsAreOne }
    ensures books { FirstFaultsExcludeBooks }
    ensures one { TextsHoldOneBook }
{}

/// Rows are accepted to their end if and only if they have the layout of a book. A row is refused only if no rows after
/// it can complete a book. `TooMany` means that a limit was exceeded, and `NotReplayable` that no replayable book has
/// these rows.
pub fn rows_have_one_layout()
    ensures taken { LayoutsAreTaken }
    ensures laid { TakenAreLaidOut }
    ensures refused { RefusedAreNoFront }
    ensures many { TooManyIsAboveALimit }
    ensures replayable { NotReplayableIsOfNoBook }
{}
