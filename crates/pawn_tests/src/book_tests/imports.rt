//! Tests of imports into a book in a list. The script `tests/answers/borders.py` shows which rows make a book.
use super::{KEY, OPERATOR, answer_to, asked, day, make, number};
use crate::acting::acted;
use pawn_book::{
    BookRows, BrokerRequest, Caller, Day, Imported, Keep, PledgeRows, Reference, Refusal,
    ReplayableRows, Reply, Request, Rows, Secret, SheetItem, Stamp, day_sheet, replayable,
};
use pawn_csv::{import, read_book};
use pawn_list_keeper::ListKeep;
use std::alloc::Global;
use std::process::Abort;
use std::test::Fail;

const IMPORT: u128 = 77;

const ANOTHER: u128 = 88;

/// A text with a pledge that was partly repaid, whose receipt was declared lost, and whose bearer has a booking.
const ROWS: &str = book_text!(
    "B,2,1,1,,,,,,,,,,,\nT,1,0,0,0,,,,,,,,,,\n\
        P,1,A1,Gold ring,fixed,10000,2024-01-31,,no,1,no,2024-02-01,open,,\nS,1,1,2024-01-31,opening,00000000-0000-0000-0000-000000000003,,,,,,,,,\n\
        S,1,2,2024-02-01,sworn,00000000-0000-0000-0000-000000000004,,,,,,,,,\nE,1,1,2024-02-01,repay,1000,,,,,,,,,\nK,1,2024-02-10,3,confirmed,,,,,,,,,,\n"
);

fn rows(alloc: Global) -> Result<ReplayableRows, Fail> {
    Ok(read_book(alloc, ROWS.as_bytes()).ok().ok_or("no book")?)
}

/// Returns the answer to an import of the rows into book 7 under this word as the key of the import.
fn imports(alloc: Global, keep: &mut ListKeep, word: u128) -> Result<Result<Reply, Refusal>, Fail> {
    let (book, day) = (number(7)?, day()?);
    let (import_key, operator) = (Secret::of_word(word), Secret::of_word(OPERATOR));
    let rows = rows(alloc)?;
    let caller = Caller::Broker {
        key: Secret::of_word(KEY),
        asked: BrokerRequest::Import { import_key, rows },
    };
    let request = Request { book, caller };
    match acted(alloc, keep, operator, &Stamp { day, word: 1 }, &request) {
        Some(answer) => Ok(answer),
        None => Err(Fail::from("no write")),
    }
}

/// Returns a keeper with book 7 and room for this many rows.
fn made(alloc: Global, limit: u64) -> Result<ListKeep, Fail> {
    let mut keep = ListKeep::new(alloc, limit.min(100));
    let turn = asked(1, make(), Ok(Reply::BookMade(number(7)?)));
    if answer_to(alloc, &mut keep, &turn)? != Some(turn.answer) {
        return Err("no book")?;
    }
    Ok(keep)
}

/// Returns whether the imported rows can be read as they were.
fn is_read(alloc: Global, keep: &mut ListKeep) -> Result<bool, Fail> {
    let book = number(7)?;
    let imported = Imported {
        key: Secret::of_word(IMPORT),
        pledges: 1,
    };
    let found = {
        let reference = Reference::of_str(alloc, "A1")?.ok_or("no reference")?;
        keep.find_ref(book, &reference)
    };
    let is_filled = match keep.book_head(book)? {
        Some(head) => head.imported == Some(imported),
        None => false,
    };
    Ok(is_filled && found? == Some(number(1)?) && keep.rows()? == 7)
}

/// The book, its terms and its pledge, with an entry, two secrets and a booking, count as seven rows.
#[test]
fn an_import_fills_a_book_once(rt: HostRuntime) -> Result<(), Fail> {
    let alloc = rt.alloc();
    let mut keep = made(alloc, 7)?;
    for _ in 0..2u32 {
        let answer = imports(alloc, &mut keep, IMPORT)?;
        assert!(rt; answer == Ok(Reply::BookFilled(1)));
        assert!(rt; is_read(alloc, &mut keep)?);
    }
    let answer = imports(alloc, &mut keep, ANOTHER)?;
    assert!(rt; answer == Err(Refusal::BookNotEmpty));
    let mut small = made(alloc, 6)?;
    let answer = imports(alloc, &mut small, IMPORT)?;
    assert!(rt; answer == Err(Refusal::Full));
    Ok(())
}

/// Returns the answer to an import of the rows into book 7 with this word as the key of the book.
fn put_by(alloc: Global, keep: &mut ListKeep, word: u128) -> Result<Result<Reply, Refusal>, Fail> {
    let (book, day) = (number(7)?, day()?);
    let (key, own) = (Secret::of_word(word), Secret::of_word(IMPORT));
    let (stamp, rows) = (Stamp { day, word: 1 }, rows(alloc)?);
    Ok(import(alloc, keep, &stamp, book, key, own, rows))
}

/// Returns whether the sheet of the booking's day lists the booking.
fn is_on_its_sheet(alloc: Global, keep: &mut ListKeep) -> Result<bool, Fail> {
    let (window, count) = (3, 1);
    let sheet = [
        SheetItem::Window { window, count },
        SheetItem::Confirmed(number(1)?),
        SheetItem::AskedHead(0),
        SheetItem::EndsHead(0),
    ];
    let (book, day) = (number(7)?, Day::from_ymd(2024, 2, 10)?);
    Ok(day_sheet(alloc, keep, book, day)?.as_slice() == sheet.as_slice())
}

#[test]
fn rows_are_put_by_the_books_key_alone(rt: HostRuntime) -> Result<(), Fail> {
    let alloc = rt.alloc();
    let mut keep = made(alloc, 100)?;
    for (key, expected) in [
        (ANOTHER, Err(Refusal::NoSuchBook)),
        (KEY, Ok(Reply::BookFilled(1))),
    ] {
        assert!(rt; put_by(alloc, &mut keep, key)? == expected);
    }
    assert!(rt; is_on_its_sheet(alloc, &mut keep)?);
    Ok(())
}

/// Checks that the rows have their terms and their pledge.
fn is_whole(rt: &impl Abort, rows: &ReplayableRows) -> Result<(), Fail> {
    assert_eq!(rt; rows.terms().len(), 1);
    match rows.pledges() {
        [pledge] => assert_eq!(rt; pledge.agreement().opening.reference.as_str(), "A1"),
        _ => return Err(Fail::from("other pledges")),
    }
    Ok(())
}

/// Returns the rows with the records of their pledges.
fn records(alloc: Global, rows: &ReplayableRows) -> Result<BookRows, Fail> {
    let mut terms = Rows::new(alloc);
    for rates in rows.terms() {
        terms.push(*rates)?;
    }
    let mut pledges = Vec::new(alloc);
    for pledge in rows.pledges() {
        pledges.push(pledge.parts()?)?;
    }
    let pledges = PledgeRows::from_vec(pledges);
    Ok(BookRows { terms, pledges })
}

#[test]
fn rows_are_copied_and_checked(rt: HostRuntime) -> Result<(), Fail> {
    let copied = {
        let rows = rows(rt.alloc())?;
        rows.copy()
    };
    let copy = copied?;
    is_whole(&rt, &copy)?;
    let records = records(rt.alloc(), &copy)?;
    assert!(rt; replayable(&records));
    let again = ReplayableRows::of_rows(records)?.ok_or("not replayable")?;
    is_whole(&rt, &again)
}
