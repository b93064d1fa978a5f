//! Each use of the library's calendar is run once. The answers that the rules require are proved, and worked out in
//! `specs/Worked.antt`.
use pawn_terms::{BadDay, Day, RequestDay, last_day};

fn end_of(text: &[u8]) -> Result<[u8; 10], BadDay> {
    let taken = RequestDay::of_text(text)?;
    Ok(last_day(taken.day(), None, None).text())
}

#[test]
fn six_months_are_cut_to_the_months_last_day(rt: HostRuntime) {
    assert_eq!(rt; end_of(b"2024-08-31"), Ok(*b"2025-02-28"));
    assert_eq!(rt; end_of(b"2199-12-31"), Ok(*b"2200-06-30"));
}

#[test]
fn days_that_are_none(rt: HostRuntime) {
    assert!(rt; Day::of_text(b"2024-02-30") == Err(BadDay));
    assert!(rt; Day::of_text(b"2200-01-01") == Err(BadDay));
    assert!(rt; Day::of_text(b"2024-2-3") == Err(BadDay));
}
