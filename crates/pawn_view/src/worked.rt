//! Worked examples of texts, as proved tests.
ghost use Rattle.pawn_view.specs.Worked.{WorkedAmounts, WorkedDays, WorkedLines, WorkedBookings, WorkedClosings};
ghost use Rattle.pawn_view.specs.Worked.{WorkedStatements, WorkedCharges, WorkedEndings, WorkedPresented};
ghost use Rattle.pawn_view.specs.WorkedSheets.{WorkedSheetLines, WorkedSheets, WorkedWindows, WorkedSheetEnds};

/// Examples of amounts and days as text.
pub fn worked_words()
    ensures amounts { WorkedAmounts }
    ensures days { WorkedDays }
{}

/// Examples of lines of statements.
pub fn worked_lines()
    ensures lines { WorkedLines }
    ensures bookings { WorkedBookings }
    ensures closings { WorkedClosings }
{}

/// Examples of statements, and of the texts that are shown for receipts.
pub fn worked_statements()
    ensures statements { WorkedStatements }
    ensures charges { WorkedCharges }
    ensures endings { WorkedEndings }
    ensures receipts { WorkedPresented }
{}

/// Examples of day's sheets, and of the pledges that they list.
pub fn worked_sheets()
    ensures lines { WorkedSheetLines }
    ensures sheets { WorkedSheets }
    ensures windows { WorkedWindows }
    ensures ends { WorkedSheetEnds }
{}
