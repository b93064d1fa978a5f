//! A store of an older schema, or of the program's schema without its indexes, is migrated, and one of its files stops
//! at some call. The tests check what is there when the store is opened again. Each call of either file is such a stop
//! in turn, until a migration meets none. The script `tests/store/migration.py` shows the same by kills over files, and
//! checks each total.
use crate::disks::{Disks, Failing, Visit, crashed, disks, go_on, looked_at, until_whole, visited};
use pawn_check::{CheckFault, Counts, check};
use pawn_move::{MoveFault, migrate, schema_of};
use pawn_table_keeper::TableKeep;
use sqlite::{Alter, Connection};
use std::alloc::Global;
use std::process::Abort;
use std::test::Fail;

/// Turns an empty store of the program's schema into one of schema 1, with a book whose only pledge has an entry.
const FIRST: &str =
    "INSERT INTO books VALUES (7, X'00000000000000000000000000000001', 'High Street', 2, 1, 1, NULL, NULL); INSERT INTO terms VALUES (7, 1, 2667, 0, 0); \
        INSERT INTO pledges VALUES (7, 1, 'A1', 'Gold ring', 0, 10000, 19723, NULL, 0, 1, 19905, 0, 19753, 0, NULL, NULL); \
        INSERT INTO entries VALUES (7, 1, 1, 19753, 1, 1000); INSERT INTO secrets VALUES (7, 1, 1, 19723, 0, X'00000000000000000000000000000003'); \
        UPDATE meta SET value = 5 WHERE name = 'rows'; DROP INDEX bookings_by_time; DROP INDEX pledges_by_end; DROP TABLE extensions; DROP TABLE totals; \
        UPDATE meta SET value = 1 WHERE name = 'schema'";

/// Turns it into one of schema 2, which has the totals of the pledge on the day of its entry.
const SECOND: &str =
    "INSERT INTO books VALUES (7, X'00000000000000000000000000000001', 'High Street', 2, 1, 1, NULL, NULL); INSERT INTO terms VALUES (7, 1, 2667, 0, 0); \
        INSERT INTO pledges VALUES (7, 1, 'A1', 'Gold ring', 0, 10000, 19723, NULL, 0, 1, 19905, 0, 19753, 0, NULL, NULL); \
        INSERT INTO entries VALUES (7, 1, 1, 19753, 1, 1000); INSERT INTO secrets VALUES (7, 1, 1, 19723, 0, X'00000000000000000000000000000003'); \
        INSERT INTO totals VALUES (7, 1, 19753, 9800, 100000); UPDATE meta SET value = 5 WHERE name = 'rows'; DROP INDEX bookings_by_time; \
        DROP INDEX pledges_by_end; DROP TABLE extensions; UPDATE meta SET value = 2 WHERE name = 'schema'";

/// Turns it into one of the program's schema without its indexes, as earlier releases made it.
pub const BARE: &str =
    "INSERT INTO books VALUES (7, X'00000000000000000000000000000001', 'High Street', 2, 1, 1, NULL, NULL); INSERT INTO terms VALUES (7, 1, 2667, 0, 0); \
        INSERT INTO pledges VALUES (7, 1, 'A1', 'Gold ring', 0, 10000, 19723, NULL, 0, 1, 19905, 0, 19753, 0, NULL, NULL); \
        INSERT INTO entries VALUES (7, 1, 1, 19753, 1, 1000); INSERT INTO secrets VALUES (7, 1, 1, 19723, 0, X'00000000000000000000000000000003'); \
        INSERT INTO totals VALUES (7, 1, 19753, 9800, 100000); UPDATE meta SET value = 5 WHERE name = 'rows'; DROP INDEX bookings_by_time; \
        DROP INDEX pledges_by_end";

/// A store to be migrated: the number of its schema, and the statements that make such a store.
#[derive(Clone, Copy)]
struct Older {
    number: u32,
    made: &'static str,
}

const OLDER: [Older; 3] = [
    Older {
        number: 1,
        made: FIRST,
    },
    Older {
        number: 2,
        made: SECOND,
    },
    Older {
        number: 3,
        made: BARE,
    },
];

/// The counts of each of these stores.
pub const COUNTS: Counts = Counts {
    books: 1,
    pledges: 1,
    rows: 5,
};

/// The result of a migration: the numbers of the schemas before and after it.
type Moved = Result<(u32, u32), MoveFault>;

/// Turns a store into one of an older schema, and migrates it. The result is that of the migration, or `None` if the
/// store stops before it.
#[derive(Drop)]
struct Moving {
    alloc: Global,
    older: Older,
}

impl Visit for Moving {
    type Found = Option<Moved>;

    fn visit<S: Alter + Drop>(&self, mut conn: Connection<S>) -> Option<(Option<Moved>, S)> {
        let is_made = conn.execute_batch(self.older.made).is_ok() && conn.is_autocommit();
        let end = is_made.then(|| migrate(self.alloc, &mut conn));
        Some((end, conn.into_store()))
    }
}

/// A migration on disks: its result, whether no call failed, and what a stop then leaves of the disks.
#[derive(Drop)]
struct Run {
    end: Moved,
    is_whole: bool,
    left: Disks,
}

/// Migrates a store of an older schema. `None` if the disks stop before that.
fn run_on(alloc: Global, disks: Disks, older: Older) -> Option<Run> {
    let (end, mut left) = visited(alloc, disks, &Moving { alloc, older })?;
    let end = end??;
    let is_whole = go_on(&mut left);
    Some(Run {
        end,
        is_whole,
        left: crashed(left),
    })
}

/// The number of indexes in a store of the program: ten for keys, and two for reading a day.
pub const INDEXES: usize = 12;

/// Returns the number of indexes in a store, the result of a check, and the store. `None` if the store has no keeper.
pub fn checked<S: Alter + Drop>(
    alloc: Global,
    conn: Connection<S>,
) -> Option<(usize, Result<Counts, CheckFault>, S)> {
    let indexes = conn.schema().indexes.as_slice().len();
    let mut keep = TableKeep::over(alloc, conn).ok()?;
    let checked = check(&mut keep);
    Some((indexes, checked, keep.into_connection().into_store()))
}

/// What is found on the disks: the number of the schema, the result of another migration, the number of indexes, and
/// the result of a check.
#[derive(Clone, Copy)]
struct Found {
    number: u32,
    again: Moved,
    indexes: usize,
    checked: Result<Counts, CheckFault>,
}

/// Migrates a store once more, and checks it.
#[derive(Drop)]
struct Checking {
    alloc: Global,
}

impl Visit for Checking {
    type Found = Found;

    fn visit<S: Alter + Drop>(&self, mut conn: Connection<S>) -> Option<(Found, S)> {
        if !conn.is_autocommit() {
            return None;
        }
        let number = schema_of(&mut conn).ok()?;
        let again = migrate(self.alloc, &mut conn);
        let (indexes, checked, store) = checked(self.alloc, conn)?;
        let found = Found {
            number,
            again,
            indexes,
            checked,
        };
        Some((found, store))
    }
}

/// Checks what is found after a migration with this result: either the old tables or the new ones are there, they can
/// be migrated, and a check finds no damage.
fn agrees(rt: &impl Abort, older: Older, end: Moved, found: Found, failing: Failing, calls: u64) {
    let number = found.number;
    match end {
        Ok(numbers) => {
            assert_eq!(rt; numbers, (older.number, 3));
            assert_eq!(rt; number, 3, "{calls} calls of {failing:?}");
        }
        Err(why) => {
            assert!(rt; why == MoveFault::Store);
            assert!(rt;
                number == 3 || number == older.number,
                "{calls} calls of {failing:?}"
            );
        }
    }
    assert!(rt;
        found.again == Ok((number, 3)),
        "{calls} calls of {failing:?}"
    );
    assert_eq!(rt; found.indexes, INDEXES, "{calls} calls of {failing:?}");
    assert!(rt; found.checked == Ok(COUNTS), "{calls} calls of {failing:?}");
}

/// Makes a file stop at this call, and checks what is found. Returns whether no call failed.
fn stops(
    rt: &impl Abort,
    alloc: Global,
    older: Older,
    failing: Failing,
    calls: u64,
) -> Result<bool, Fail> {
    let Some(run) = run_on(alloc, disks(alloc, failing, calls), older) else {
        return Ok(false);
    };
    let (end, is_whole) = (run.end, run.is_whole);
    let found = looked_at(alloc, run.left, &Checking { alloc }).ok_or("opened again")?;
    agrees(rt, older, end, found, failing, calls);
    Ok(is_whole)
}

/// Makes a file stop at its first call, at its second, and so on, until a migration meets no stop.
fn stops_at_each_call(rt: &impl Abort, alloc: Global, failing: Failing) -> Result<(), Fail> {
    for older in OLDER {
        until_whole(|calls| stops(rt, alloc, older, failing, calls))?;
    }
    Ok(())
}

#[test]
fn a_log_that_stops_leaves_the_old_tables_or_the_new(rt: HostRuntime) -> Result<(), Fail> {
    stops_at_each_call(&rt, rt.alloc(), Failing::Log)
}

#[test]
fn a_database_file_that_stops_leaves_the_old_tables_or_the_new(
    rt: HostRuntime,
) -> Result<(), Fail> {
    stops_at_each_call(&rt, rt.alloc(), Failing::Database)
}
