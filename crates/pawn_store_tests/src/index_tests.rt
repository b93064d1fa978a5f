//! A store without its two indexes is opened, and one of its files stops at some call. Afterwards either both indexes
//! exist or neither does, and every row is there. Each call of either file is such a stop in turn, until an opening
//! meets none.
use crate::disks::{Disks, Failing, Visit, crashed, disks, go_on, looked_at, until_whole, visited};
use crate::move_tests::{BARE, COUNTS, INDEXES, checked};
use pawn_check::{CheckFault, Counts};
use sqlite::{Alter, Connection};
use std::alloc::Global;
use std::process::Abort;
use std::test::Fail;

/// An opening on disks: whether the store was opened, whether no call failed, and what a stop then leaves of the disks.
#[derive(Drop)]
struct Run {
    is_opened: bool,
    is_whole: bool,
    left: Disks,
}

/// Removes the indexes from a store. The result is whether that was done.
#[derive(Drop)]
struct Baring;

impl Visit for Baring {
    type Found = bool;

    fn visit<S: Alter + Drop>(&self, mut conn: Connection<S>) -> Option<(bool, S)> {
        let is_bare = conn.execute_batch(BARE).is_ok();
        Some((is_bare, conn.into_store()))
    }
}

/// Opens a store, and does nothing with it.
#[derive(Drop)]
struct Opening;

impl Visit for Opening {
    type Found = ();

    fn visit<S: Alter + Drop>(&self, conn: Connection<S>) -> Option<((), S)> {
        Some(((), conn.into_store()))
    }
}

/// Makes a store without indexes, closes it, and opens it again. `None` if the disks stop before that.
fn run_on(alloc: Global, disks: Disks) -> Option<Run> {
    let (is_bare, mut left) = visited(alloc, disks, &Baring)?;
    if is_bare != Some(true) || !go_on(&mut left) {
        return None;
    }
    let (opened, mut left) = visited(alloc, left, &Opening)?;
    Some(Run {
        is_opened: opened.is_some(),
        is_whole: go_on(&mut left),
        left: crashed(left),
    })
}

/// Counts the indexes of a store, and checks the store.
#[derive(Drop)]
struct Checking {
    alloc: Global,
}

impl Visit for Checking {
    type Found = (usize, Result<Counts, CheckFault>);

    fn visit<S: Alter + Drop>(
        &self,
        conn: Connection<S>,
    ) -> Option<((usize, Result<Counts, CheckFault>), S)> {
        let (indexes, checked, store) = checked(self.alloc, conn)?;
        Some(((indexes, checked), store))
    }
}

/// Makes a file stop at this call. Returns whether no call failed.
fn stops(rt: &impl Abort, alloc: Global, failing: Failing, calls: u64) -> Result<bool, Fail> {
    let Some(run) = run_on(alloc, disks(alloc, failing, calls)) else {
        return Ok(false);
    };
    let (is_opened, is_whole) = (run.is_opened, run.is_whole);
    let (indexes, checked) = looked_at(alloc, run.left, &Checking { alloc }).ok_or("opened again")?;
    if is_opened {
        assert_eq!(rt; indexes, INDEXES, "{calls} calls of {failing:?}");
    } else {
        assert!(rt;
            indexes == INDEXES || indexes == INDEXES - 2,
            "{calls} calls of {failing:?}"
        );
    }
    assert!(rt; checked == Ok(COUNTS), "{calls} calls of {failing:?}");
    Ok(is_whole)
}

/// Makes a file stop at its first call, at its second, and so on, until an opening meets no stop.
fn stops_at_each_call(rt: &impl Abort, alloc: Global, failing: Failing) -> Result<(), Fail> {
    until_whole(|calls| stops(rt, alloc, failing, calls))
}

#[test]
fn a_log_that_stops_leaves_both_indexes_or_none(rt: HostRuntime) -> Result<(), Fail> {
    stops_at_each_call(&rt, rt.alloc(), Failing::Log)
}

#[test]
fn a_database_file_that_stops_leaves_both_indexes_or_none(rt: HostRuntime) -> Result<(), Fail> {
    stops_at_each_call(&rt, rt.alloc(), Failing::Database)
}
