//! A brief that is read by a caller with the brief of another pledge is the same as one that is read alone, over lists and
//! over tables, whether or not both pledges are under the same version of the terms.

use super::visits::{BOOK, TERMS, send};
use super::{service_of, service_over, stamp};
use pawn_book::{Brief, Keep, Number};
use pawn_host::Service;
use pawn_store::keep_in_memory;
use std::alloc::Global;
use std::process::Abort;
use std::test::Fail;

const LATER_TERMS: &str = "{\"keep_after\":0,\"keep_before\":0,\"rate\":1000,\"version\":2}";

/// How many pledges the book has: the first two are under the first terms, the others under the later ones.
const PLEDGES: u64 = 4;

/// Takes pledges of the numbers from `first` up to the one before `after`.
fn take<K: Keep>(
    rt: &impl Abort,
    service: &mut Service<K>,
    alloc: Global,
    first: u64,
    after: u64,
) -> Result<(), Fail> {
    for number in first..after {
        let body = format!(in alloc;
            "{{\"article\":\"Ring\",\"five_days\":false,\"kind\":\"fixed\",\"pence\":10000,\"ref\":\"A{number}\"}}"
        )?;
        send(rt, service, alloc, number, "/pledges", body.as_str())?;
    }
    Ok(())
}

/// Fills a book with pledges under two versions of terms.
fn fill<K: Keep>(rt: &impl Abort, service: &mut Service<K>, alloc: Global) -> Result<(), Fail> {
    service.answer_one(&stamp(rt, 0), BOOK.as_bytes());
    send(rt, service, alloc, 0, "/terms", TERMS)?;
    take(rt, service, alloc, 1, 3)?;
    send(rt, service, alloc, 0, "/terms", LATER_TERMS)?;
    take(rt, service, alloc, 3, PLEDGES + 1)
}

/// What a brief has of a pledge: its number, its terms and its live secret.
fn same(one: &Option<Brief>, other: &Option<Brief>) -> bool {
    match (one, other) {
        (Some(one), Some(other)) => {
            let (one, other) = (one.fields(), other.fields());
            one.agreement.number == other.agreement.number
                && one.agreement.version == other.agreement.version
                && one.agreement.terms == other.agreement.terms
                && one.live == other.live
        }
        (None, None) => true,
        _ => false,
    }
}

/// Checks each brief that is read with each other one, and with its own. There is none after the last pledge.
fn each_is_the_same<K: Keep>(rt: &impl Abort, keep: &mut K) -> Result<(), Fail> {
    let book = Number::new(7).ok_or("a number")?;
    for first in 1..PLEDGES + 1 {
        let first = Number::new(first).ok_or("a number")?;
        let known = keep.brief(book, first).ok().ok_or("a read")?;
        let known = known.ok_or("a pledge")?;
        for number in 1..PLEDGES + 2 {
            let number = Number::new(number).ok_or("a number")?;
            let alone = keep.brief(book, number).ok().ok_or("a read")?;
            let further = keep
                .further_brief(book, number, &known)
                .ok()
                .ok_or("a read")?;
            assert!(rt;
                same(&alone, &further),
                "{} with {}",
                number.get(),
                first.get()
            );
            assert_eq!(rt; further.is_some(), u64::from(number.get()) <= PLEDGES);
        }
    }
    Ok(())
}

#[test]
fn a_further_brief_is_the_same(rt: HostRuntime) -> Result<(), Fail> {
    let alloc = rt.alloc();
    let mut list = service_of(&rt, alloc, 1000);
    let mut tables = service_over(
        &rt,
        alloc,
        keep_in_memory(alloc, 1000).ok().ok_or("no store")?,
    );
    fill(&rt, &mut list, alloc)?;
    fill(&rt, &mut tables, alloc)?;
    each_is_the_same(&rt, &mut list.keep)?;
    each_is_the_same(&rt, &mut tables.keep)
}
