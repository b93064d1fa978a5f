//! A file fails at some call of a run, as when the machine stops and everything that was not synced is lost. The tests
//! check what is there when the store is opened again. Each call of either file is such a stop in turn, from the first,
//! at which the empty store is opened, until a run meets none. The script `tests/store/disk.py` shows the same over
//! files of the system.

use super::turns::{EXPORT, EXPORT_OTHER, TURNS};
use super::{ROWS, bytes_of, service_of, service_over, stamp};
use crate::disks::{Disks, Failing, Visit, crashed, disks, go_on, until_whole, visited};
use pawn_book::Keep;
use pawn_check::{CheckFault, Counts, check};
use pawn_host::{Answer, Service};
use pawn_table_keeper::TableKeep;
use sqlite::{Alter, Connection};
use std::alloc::Global;
use std::process::Abort;
use std::test::Fail;

/// What a service shows: the counts of a check of its keeper, and the texts of the two books.
#[derive(Drop)]
struct Shown {
    counts: Result<Counts, CheckFault>,
    book: Answer,
    other: Answer,
}

fn show_all<K: Keep>(rt: &impl Abort, service: &mut Service<K>) -> Shown {
    let counts = check(&mut service.keep);
    let book = service.answer_one(&stamp(rt, 0), EXPORT);
    let other = service.answer_one(&stamp(rt, 0), EXPORT_OTHER);
    Shown {
        counts,
        book,
        other,
    }
}

fn are_same(one: &Shown, other: &Shown) -> bool {
    one.counts == other.counts
        && bytes_of(&one.book) == bytes_of(&other.book)
        && bytes_of(&one.other) == bytes_of(&other.other)
}

/// Returns what a list shows after none of the turns, after the first, and so on up to all of them.
fn shown_after_each(rt: &impl Abort, alloc: Global) -> Result<Vec<Shown>, Fail> {
    let (mut service, mut all) = (service_of(rt, alloc, ROWS), Vec::new(alloc));
    show_each(rt, &mut service, &mut all)?;
    Ok(all)
}

/// Adds what the service shows before the turns and after each of them.
fn show_each<K: Keep>(
    rt: &impl Abort,
    service: &mut Service<K>,
    all: &mut Vec<Shown>,
) -> Result<(), Fail> {
    all.push(show_all(rt, service))?;
    for turn in TURNS {
        service.answer_one(&stamp(rt, turn.word), turn.request.as_bytes());
        all.push(show_all(rt, service))?;
    }
    Ok(())
}

/// Returns how many turns a service answers before the first that it does not answer.
fn played<K: Keep>(rt: &impl Abort, service: &mut Service<K>) -> usize {
    let mut answered = 0usize;
    for turn in TURNS {
        let answer = service.answer_one(&stamp(rt, turn.word), turn.request.as_bytes());
        if bytes_of(&answer) != turn.reply.as_bytes() {
            break;
        }
        answered = answered.saturating_add(1);
    }
    answered
}

/// Work with a service over any keeper.
trait Task {
    type Found;

    fn run<K: Keep>(&self, rt: &impl Abort, service: &mut Service<K>) -> Self::Found;
}

/// Plays the turns. The result is how many are answered before the first that is not.
#[derive(Drop)]
struct Playing;

impl Task for Playing {
    type Found = usize;

    fn run<K: Keep>(&self, rt: &impl Abort, service: &mut Service<K>) -> usize {
        played(rt, service)
    }
}

/// The result is what the service shows.
#[derive(Drop)]
struct Looking;

impl Task for Looking {
    type Found = Shown;

    fn run<K: Keep>(&self, rt: &impl Abort, service: &mut Service<K>) -> Shown {
        show_all(rt, service)
    }
}

/// Does a task with a service over a store.
#[derive(Drop)]
struct Serving<'a, R: Abort, T: Task> {
    rt: &'a R,
    alloc: Global,
    task: &'a T,
}

impl<R: Abort, T: Task> Visit for Serving<'_, R, T> {
    type Found = T::Found;

    fn visit<S: Alter + Drop>(&self, conn: Connection<S>) -> Option<(T::Found, S)> {
        let keep = TableKeep::over(self.alloc, conn).ok()?;
        let mut service = service_over(self.rt, self.alloc, keep);
        let found = self.task.run(self.rt, &mut service);
        Some((found, service.into_keep().into_connection().into_store()))
    }
}

/// A run over disks: how many turns were answered before the first that was not (`None` if the store was not opened),
/// whether no call failed, and what a stop then leaves of the disks.
#[derive(Drop)]
struct Run {
    answered: Option<usize>,
    is_whole: bool,
    left: Disks,
}

fn run_on(rt: &impl Abort, alloc: Global, disks: Disks) -> Option<Run> {
    let task = &Playing;
    let (answered, mut left) = visited(alloc, disks, &Serving { rt, alloc, task })?;
    Some(Run {
        answered,
        is_whole: answered.is_some() && go_on(&mut left),
        left: crashed(left),
    })
}

/// Returns whether what is shown equals what the list shows after one of these turns.
fn is_among(wanted: &[Shown], first: usize, last: usize, found: &Shown) -> bool {
    let mut is_wanted = false;
    for (turns, shown) in wanted.iter().enumerate() {
        is_wanted = is_wanted || (first <= turns && turns <= last && are_same(found, shown));
    }
    is_wanted
}

/// Makes a file stop at this call, and checks what is there afterwards: the effect of all answered turns, with or
/// without that of the turn that was being processed, or no book if the stop came before the store was opened. Returns
/// whether no call failed.
fn stops(
    rt: &impl Abort,
    alloc: Global,
    wanted: &[Shown],
    failing: Failing,
    calls: u64,
) -> Result<bool, Fail> {
    let run = run_on(rt, alloc, disks(alloc, failing, calls)).ok_or("a keeper")?;
    let (answered, is_whole) = (run.answered, run.is_whole);
    let task = &Looking;
    let (found, _) = visited(alloc, run.left, &Serving { rt, alloc, task }).ok_or("a keeper")?;
    let found = found.ok_or("opened again")?;
    let (first, last) = match answered {
        Some(answered) => (answered, answered.saturating_add(1)),
        None => (0, 0),
    };
    let is_wanted = is_among(wanted, first, last, &found);
    assert!(rt; is_wanted, "{first} answered, {calls} calls of {failing:?}");
    if is_whole {
        assert_eq!(rt; first, TURNS.len());
    }
    Ok(is_whole)
}

/// Makes a file stop at its first call, at its second, and so on, until a run meets no stop.
fn stops_at_each_call(rt: &impl Abort, alloc: Global, failing: Failing) -> Result<(), Fail> {
    let wanted = shown_after_each(rt, alloc)?;
    until_whole(|calls| stops(rt, alloc, wanted.as_slice(), failing, calls))
}

#[test]
fn a_log_that_stops_leaves_what_was_answered(rt: HostRuntime) -> Result<(), Fail> {
    stops_at_each_call(&rt, rt.alloc(), Failing::Log)
}

#[test]
fn a_database_file_that_stops_leaves_what_was_answered(rt: HostRuntime) -> Result<(), Fail> {
    stops_at_each_call(&rt, rt.alloc(), Failing::Database)
}
