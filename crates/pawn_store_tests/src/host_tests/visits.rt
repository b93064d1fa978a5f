//! A visitor of a book's rows stops at each row in turn. Over lists and over tables it gets the same rows, as many as
//! it takes, also where a range of pledges or a page of a list ends.

ghost use Rattle.std.specs.Prelude.{⊤};

use super::{service_of, service_over, stamp};
use pawn_book::{Flow, Keep, Number, RowItem, Visitor};
use pawn_host::Service;
use pawn_store::keep_in_memory;
use std::alloc::Global;
use std::process::Abort;
use std::test::Fail;

/// The request that makes the book.
pub(super) const BOOK: &str =
    "POST /books/7 HTTP/1.1\r\nPledge-Key: 11111111-1111-1111-1111-111111111111\r\nContent-Length: 80\r\n\r\n\
    {\"capacity\":1,\"key\":\"22222222-2222-2222-2222-222222222222\",\"name\":\"High Street\"}";

pub(super) const TERMS: &str = "{\"keep_after\":0,\"keep_before\":0,\"rate\":0,\"version\":1}";

/// One range of pledges and the first pledge of the next one.
const PLEDGES: u64 = 33;

/// One page of entries and the first entry of the next one.
const ENTRIES: u64 = 65;

/// How many rows there are: each pledge has its own and one secret, the last pledge of the first range has the entries,
/// and the pledge after it has an extension.
const ALL: usize = 132;

/// A row as it is noted: its kind, the number of its pledge, and its place in its list.
type Noted = (u8, u32, u64);

fn noted(item: &RowItem) -> Noted {
    let number = item.number().get();
    match item {
        RowItem::Pledge(_) => (0, number, 0),
        RowItem::Secret { place, .. } => (1, number, *place),
        RowItem::Entry { entry, .. } => (2, number, entry.seq),
        RowItem::Extension { place, .. } => (3, number, *place),
        RowItem::Booking { .. } => (4, number, 0),
    }
}

/// A visitor that notes each row, and stops at the last of so many.
#[derive(Drop)]
struct Noting {
    most: usize,
    seen: Vec<Noted>,
}

impl Visitor<RowItem> for Noting {
    ghost step = { λ v item flow w. ⊤ };

    fn visit(&mut self, item: &RowItem) -> Flow {
        if self.seen.push(noted(item)).is_err() || self.seen.len() >= self.most {
            return Flow::Stop;
        }
        Flow::Go
    }
}

/// Sends a request of the broker, which must succeed.
pub(super) fn send<K: Keep>(
    rt: &impl Abort,
    service: &mut Service<K>,
    alloc: Global,
    word: u64,
    target: &str,
    body: &str,
) -> Result<(), Fail> {
    let length = body.len();
    let request = format!(in alloc;
        "POST /books/7{target} HTTP/1.1\r\nPledge-Key: 22222222-2222-2222-2222-222222222222\r\nContent-Length: {length}\r\n\r\n{body}"
    )?;
    let answer = service.answer_one(&stamp(rt, word as u128), request.as_bytes());
    let is_done = super::bytes_of(&answer).starts_with(b"HTTP/1.1 200 OK\r\n");
    assert!(rt; is_done, "{target} {body}");
    Ok(())
}

/// Fills a book.
fn fill<K: Keep>(rt: &impl Abort, service: &mut Service<K>, alloc: Global) -> Result<(), Fail> {
    service.answer_one(&stamp(rt, 0), BOOK.as_bytes());
    send(rt, service, alloc, 0, "/terms", TERMS)?;
    for number in 1..PLEDGES + 1 {
        let body = format!(in alloc;
            "{{\"article\":\"Ring\",\"five_days\":false,\"kind\":\"fixed\",\"pence\":10000,\"ref\":\"A{number}\"}}"
        )?;
        send(rt, service, alloc, number, "/pledges", body.as_str())?;
    }
    for seq in 1..ENTRIES + 1 {
        let body = format!(in alloc; "{{\"pence\":100,\"seq\":{seq}}}")?;
        send(rt, service, alloc, 0, "/pledges/32/repay", body.as_str())?;
    }
    send(
        rt,
        service,
        alloc,
        0,
        "/pledges/33/extend",
        "{\"until\":\"2024-09-30\"}",
    )
}

/// Returns the rows that a visitor gets which stops at the last of so many.
fn rows_of<K: Keep>(
    keep: &mut K,
    alloc: Global,
    book: Number,
    most: usize,
) -> Result<Vec<Noted>, Fail> {
    let mut visitor = Noting {
        most,
        seen: Vec::new(alloc),
    };
    keep.rows_each(book, &mut visitor).ok().ok_or("a read")?;
    Ok(visitor.seen)
}

/// Checks that both keepers pass the same rows to a visitor, wherever it stops.
fn both_pass<K: Keep, L: Keep>(
    rt: &impl Abort,
    alloc: Global,
    list: &mut K,
    tables: &mut L,
) -> Result<(), Fail> {
    let book = Number::new(7).ok_or("a number")?;
    for most in 1..ALL + 2 {
        let listed = rows_of(list, alloc, book, most)?;
        let stored = rows_of(tables, alloc, book, most)?;
        assert_eq!(rt; listed.len(), most.min(ALL));
        assert!(rt;
            listed.as_slice() == stored.as_slice(),
            "a visitor that stops at row {most}"
        );
    }
    Ok(())
}

#[test]
fn a_visitor_stops_at_each_row(rt: HostRuntime) -> Result<(), Fail> {
    let alloc = rt.alloc();
    let mut list = service_of(&rt, alloc, 1000);
    let mut tables = service_over(
        &rt,
        alloc,
        keep_in_memory(alloc, 1000).ok().ok_or("no store")?,
    );
    fill(&rt, &mut list, alloc)?;
    fill(&rt, &mut tables, alloc)?;
    both_pass(&rt, alloc, &mut list.keep, &mut tables.keep)
}
