//! Each call that allocates memory is run once, and its answer is checked. The answers that the rules require are
//! proved, and worked out in `specs/Worked.antt`.
use pawn_debt::{Debt, Entries, Kind};
use pawn_terms::{Day, RequestDay, Terms, last_day};
use std::alloc::Global;
use std::test::Fail;

fn day(text: &[u8]) -> Result<Day, Fail> {
    Ok(RequestDay::of_text(text)?.day())
}

/// Returns a running account with a limit of 50 pounds, of which 30 are drawn and 10 repaid.
fn account(alloc: Global) -> Result<Debt, Fail> {
    let taken = RequestDay::of_text(b"2024-01-31")?.day();
    let terms = Terms::check(2667, 0, 0)?;
    let ends = last_day(taken, None, None);
    let mut debt = Debt::start(alloc, Kind::Running(5000), terms, taken, ends)?;
    debt.draw(taken, 3000)?;
    debt.repay(day(b"2024-03-01")?, 1000)?;
    Ok(debt)
}

#[test]
fn a_drawing_and_a_repayment_are_entered(rt: HostRuntime) -> Result<(), Fail> {
    let debt = account(rt.alloc())?;
    assert_eq!(rt; debt.count(), 2);
    assert_eq!(rt; debt.totals().principal, 2240);
    assert_eq!(rt; debt.totals().millionths, 30_000);
    Ok(())
}

#[test]
fn a_copy_has_the_same_entries(rt: HostRuntime) -> Result<(), Fail> {
    let debt = account(rt.alloc())?;
    let copy = debt.copy()?;
    assert!(rt; copy.entries() == debt.entries());
    assert!(rt; copy.totals() == debt.totals());
    Ok(())
}

/// Returns the same account, made from its entries.
fn account_of(entries: Entries) -> Result<Debt, Fail> {
    let taken = RequestDay::of_text(b"2024-01-31")?.day();
    let terms = Terms::check(2667, 0, 0)?;
    let ends = last_day(taken, None, None);
    Debt::of_entries(Kind::Running(5000), terms, taken, ends, entries).map_err(
        |_| "handed back".into(),
    )
}

#[test]
fn a_debt_of_its_entries_has_the_same_totals(rt: HostRuntime) -> Result<(), Fail> {
    let debt = account(rt.alloc())?;
    let again = account_of(debt.copy_entries()?)?;
    assert!(rt; again.totals() == debt.totals());
    Ok(())
}

#[test]
fn entries_of_a_list_are_that_list(rt: HostRuntime) -> Result<(), Fail> {
    let debt = account(rt.alloc())?;
    let entries = Entries::from_vec(Vec::from_slice(rt.alloc(), debt.entries())?);
    let copy = entries.copy()?;
    assert!(rt; copy.as_slice() == debt.entries());
    Ok(())
}
