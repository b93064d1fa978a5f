//! Worked examples of rows, as a proved test.
ghost use Rattle.pawn_csv.specs.WorkedTexts.{WorkedRowTexts};

/// Examples of rows that are accepted, and of rows that are refused.
pub fn worked_texts()
    ensures texts { WorkedRowTexts }
{}
