//! Tests of reading a text, of readers that fail, and of writing the text of a book. The scripts
//! `tests/answers/exports.py`, `tests/answers/borders.py` and `tests/answers/rounds.py` show which texts are books, and
//! which faults other texts have.
use pawn_csv::read_book;
use std::test::Fail;

mod exports;
mod torn;

/// A text with a pledge whose receipt was declared lost, and whose bearer asked for a booking.
const EXAMPLE: &str = book_text!(
    "B,1,1,1,,,,,,,,,,,\nT,1,0,0,0,,,,,,,,,,\n\
        P,1,A1,Gold ring,fixed,10000,2024-01-31,,no,1,no,2024-02-01,open,,\nS,1,1,2024-01-31,opening,00000000-0000-0000-0000-000000000003,,,,,,,,,\n\
        S,1,2,2024-02-01,sworn,00000000-0000-0000-0000-000000000004,,,,,,,,,\nK,1,2024-02-10,3,asked,,,,,,,,,,\n"
);

#[test]
fn the_text_of_a_book_is_read(rt: HostRuntime) -> Result<(), Fail> {
    let Ok(book) = read_book(rt.alloc(), EXAMPLE.as_bytes()) else {
        return Err(Fail::from("no book"));
    };
    assert!(rt; book.terms().len() == 1);
    let pledges = book.pledges();
    assert!(rt; pledges.len() == 1);
    assert!(rt; pledges[0].secrets().len() == 2);
    assert!(rt; pledges[0].standing().booking.is_some());
    Ok(())
}
