//! The texts of the SQL statements, table by table: those that make a table, read it and write it.
//!
//! No other source file of the program names a column; `specs/Schema.antt` defines the tables. Each text is written
//! once, and the proofs of its meaning cite it by its name. `encoding.rt` says how a value is written into a cell, and
//! `cells.rt` how it is read.

// ---- books

/// Makes the table of books: one row for each book, with how many versions of terms and pledges it has.
pub const MAKE_BOOKS: &str = "\
    CREATE TABLE books (\
    book INTEGER PRIMARY KEY, \
    book_key BLOB NOT NULL, \
    title TEXT NOT NULL, \
    capacity INTEGER NOT NULL, \
    terms INTEGER NOT NULL, \
    pledges INTEGER NOT NULL, \
    import_key BLOB, \
    imported INTEGER) STRICT";

/// Reads the head of a book.
pub(crate) const READ_HEAD: &str = "\
    SELECT book_key, title, capacity, terms, pledges, import_key, imported \
    FROM books WHERE book = ?1";

/// Finds the least book number that is greater than another.
pub(crate) const FIND_NEXT_BOOK: &str =
    "SELECT book FROM books WHERE book > ?1 ORDER BY book LIMIT 1";

/// Inserts a new book.
pub const PUT_BOOK: &str = "INSERT INTO books VALUES (?1, ?2, ?3, ?4, 0, 0, NULL, NULL)";

/// Sets how many versions of terms a book has.
pub const SET_TERMS_COUNT: &str = "UPDATE books SET terms = ?2 WHERE book = ?1";

/// Sets how many pledges a book has.
pub const SET_PLEDGES_COUNT: &str = "UPDATE books SET pledges = ?2 WHERE book = ?1";

/// Notes an import in its book: its key, and how many versions of terms and how many pledges it brought.
pub const SET_IMPORT: &str =
    "UPDATE books SET terms = ?2, pledges = ?3, import_key = ?4, imported = ?3 WHERE book = ?1";

// ---- terms

/// Makes the table of terms: one row for each version. `rate` is in millionths of the principal a day; the charges for
/// safe keeping, `keep_before` and `keep_after`, are in millionths of a penny a day.
pub const MAKE_TERMS: &str = "\
    CREATE TABLE terms (\
    book INTEGER NOT NULL REFERENCES books, \
    version INTEGER NOT NULL, \
    rate INTEGER NOT NULL, \
    keep_before INTEGER NOT NULL, \
    keep_after INTEGER NOT NULL, \
    PRIMARY KEY (book, version)) STRICT";

/// Reads the terms of a version.
pub(crate) const READ_TERMS: &str =
    "SELECT rate, keep_before, keep_after FROM terms WHERE book = ?1 AND version = ?2";

/// Inserts the terms of a version.
pub const PUT_TERMS: &str = "INSERT INTO terms VALUES (?1, ?2, ?3, ?4, ?5)";

// ---- pledges

/// Makes the table of pledges. Days are day numbers, counted from 1970-01-01; `credit` and `amount` are in pence.
pub const MAKE_PLEDGES: &str = "\
    CREATE TABLE pledges (\
    book INTEGER NOT NULL, \
    number INTEGER NOT NULL, \
    ref TEXT NOT NULL, \
    article TEXT NOT NULL, \
    kind INTEGER NOT NULL, \
    credit INTEGER NOT NULL, \
    taken INTEGER NOT NULL, \
    agreed INTEGER, \
    five INTEGER NOT NULL, \
    version INTEGER NOT NULL, \
    ends INTEGER NOT NULL, \
    held INTEGER NOT NULL, \
    last_day INTEGER NOT NULL, \
    closed INTEGER NOT NULL, \
    closed_day INTEGER, \
    amount INTEGER, \
    PRIMARY KEY (book, number), \
    UNIQUE (book, ref), \
    FOREIGN KEY (book, version) REFERENCES terms) STRICT";

/// Makes the index for the search for the periods that end on a day.
pub const MAKE_PLEDGES_BY_END: &str =
    "CREATE INDEX pledges_by_end ON pledges (book, closed, ends, number)";

/// Reads the row of a pledge.
pub(crate) const READ_PLEDGE: &str = "\
    SELECT ref, article, kind, credit, taken, agreed, five, version, ends, held, last_day, \
    closed, closed_day, amount \
    FROM pledges WHERE book = ?1 AND number = ?2";

/// Reads the rows of the pledges of a range, which begins above ?2 and ends with ?3.
pub(crate) const READ_PLEDGES_RANGE: &str = "\
    SELECT ref, article, kind, credit, taken, agreed, five, version, ends, held, last_day, \
    closed, closed_day, amount, number \
    FROM pledges WHERE book = ?1 AND number > ?2 AND number <= ?3 \
    ORDER BY number LIMIT 64";

/// Reads the part of what was agreed on a pledge that its debt depends on.
pub(crate) const READ_CREDIT: &str =
    "SELECT kind, credit, taken, agreed, version FROM pledges WHERE book = ?1 AND number = ?2";

/// Finds the number of the first pledge of a book with a reference.
pub(crate) const FIND_REFERENCE: &str =
    "SELECT number FROM pledges WHERE book = ?1 AND ref = ?2 ORDER BY number LIMIT 1";

/// Counts the periods that end on a day, without those of redeemed and sold pledges.
pub(crate) const COUNT_ENDS: &str =
    "SELECT count(*) FROM pledges WHERE book = ?1 AND closed = 0 AND ends = ?2";

/// Reads a page of the pledges whose number is greater than ?2 and whose period ends on a day, without the redeemed and
/// the sold.
pub(crate) const READ_ENDS_PAGE: &str = "\
    SELECT number FROM pledges WHERE book = ?1 AND number > ?2 AND closed = 0 AND ends = ?3 \
    ORDER BY number LIMIT 64";

/// Inserts the row of a new pledge.
pub const PUT_PLEDGE: &str = "\
    INSERT INTO pledges VALUES \
    (?1, ?2, ?3, ?4, ?5, ?6, ?7, ?8, ?9, ?10, ?11, ?12, ?13, ?14, ?15, ?16)";

/// Sets the columns of a pledge's row that can change, if any of them differs from the stored one.
pub const SET_PLEDGE: &str = "\
    UPDATE pledges SET ends = ?3, held = ?4, last_day = ?5, closed = ?6, closed_day = ?7, \
    amount = ?8 \
    WHERE book = ?1 AND number = ?2 AND (\
    ends IS NOT ?3 OR held IS NOT ?4 OR last_day IS NOT ?5 OR closed IS NOT ?6 \
    OR closed_day IS NOT ?7 OR amount IS NOT ?8)";

// ---- entries

/// Makes the table of entries. `sort` is 0 for a drawing and 1 for a repayment.
pub const MAKE_ENTRIES: &str = "\
    CREATE TABLE entries (\
    book INTEGER NOT NULL, \
    number INTEGER NOT NULL, \
    seq INTEGER NOT NULL, \
    day INTEGER NOT NULL, \
    sort INTEGER NOT NULL, \
    pence INTEGER NOT NULL, \
    PRIMARY KEY (book, number, seq), \
    FOREIGN KEY (book, number) REFERENCES pledges) STRICT";

/// Reads the entries of a pledge.
pub(crate) const READ_ENTRIES: &str =
    "SELECT seq, day, sort, pence FROM entries WHERE book = ?1 AND number = ?2 ORDER BY seq";

/// Reads a page of the entries of a pledge, from a number on.
pub(crate) const READ_ENTRIES_PAGE: &str = "\
    SELECT seq, day, sort, pence FROM entries WHERE book = ?1 AND number = ?2 AND seq >= ?3 \
    ORDER BY seq LIMIT 64";

/// Reads a page of the entries of the pledges of a range, which begins above ?2 and ends with ?3.
pub(crate) const READ_ENTRIES_RANGE: &str = "\
    SELECT seq, day, sort, pence, number FROM entries \
    WHERE book = ?1 AND number > ?2 AND number <= ?3 \
    ORDER BY number, seq LIMIT 64";

/// Reads the entry of a pledge with a number.
pub(crate) const READ_ENTRY: &str =
    "SELECT seq, day, sort, pence FROM entries WHERE book = ?1 AND number = ?2 AND seq = ?3";

/// Reads the number of the last entry of a pledge.
pub(crate) const READ_LAST_SEQ: &str =
    "SELECT seq FROM entries WHERE book = ?1 AND number = ?2 ORDER BY seq DESC LIMIT 1";

/// Inserts an entry of a pledge.
pub const PUT_ENTRY: &str = "INSERT INTO entries VALUES (?1, ?2, ?3, ?4, ?5, ?6)";

// ---- secrets

/// Makes the table of secrets.
pub const MAKE_SECRETS: &str = "\
    CREATE TABLE secrets (\
    book INTEGER NOT NULL, \
    number INTEGER NOT NULL, \
    place INTEGER NOT NULL, \
    day INTEGER NOT NULL, \
    sort INTEGER NOT NULL, \
    secret BLOB NOT NULL, \
    PRIMARY KEY (book, number, place), \
    UNIQUE (book, number, secret), \
    FOREIGN KEY (book, number) REFERENCES pledges) STRICT";

/// Reads the secrets of a pledge.
pub(crate) const READ_SECRETS: &str =
    "SELECT place, day, sort, secret FROM secrets WHERE book = ?1 AND number = ?2 ORDER BY place";

/// Reads a page of the secrets of a pledge, after a place.
pub(crate) const READ_SECRETS_PAGE: &str = "\
    SELECT place, day, sort, secret FROM secrets WHERE book = ?1 AND number = ?2 AND place > ?3 \
    ORDER BY place LIMIT 64";

/// Reads a page of the secrets of the pledges of a range, which begins above ?2 and ends with ?3.
pub(crate) const READ_SECRETS_RANGE: &str = "\
    SELECT place, day, sort, secret, number FROM secrets \
    WHERE book = ?1 AND number > ?2 AND number <= ?3 \
    ORDER BY number, place LIMIT 64";

/// Reads the secret of a pledge at a place.
pub(crate) const READ_SECRET: &str =
    "SELECT place, day, sort, secret FROM secrets WHERE book = ?1 AND number = ?2 AND place = ?3";

/// Reads the last secret of a pledge.
pub(crate) const READ_LAST_SECRET: &str = "\
    SELECT place, day, sort, secret FROM secrets WHERE book = ?1 AND number = ?2 \
    ORDER BY place DESC LIMIT 1";

/// Inserts a secret of a pledge at its place.
pub const PUT_SECRET: &str = "INSERT INTO secrets VALUES (?1, ?2, ?3, ?4, ?5, ?6)";

// ---- bookings

/// Makes the table of bookings: at most one row for each pledge. `slot` is the window.
pub const MAKE_BOOKINGS: &str = "\
    CREATE TABLE bookings (\
    book INTEGER NOT NULL, \
    number INTEGER NOT NULL, \
    day INTEGER NOT NULL, \
    slot INTEGER NOT NULL, \
    state INTEGER NOT NULL, \
    PRIMARY KEY (book, number), \
    FOREIGN KEY (book, number) REFERENCES pledges) STRICT";

/// Makes the index for the search for the bookings of a day. The number precedes the window, so that the rows of a page
/// are in the order of the index.
pub const MAKE_BOOKINGS_BY_TIME: &str =
    "CREATE INDEX bookings_by_time ON bookings (book, day, state, number, slot)";

/// Reads the booking of a pledge.
pub(crate) const READ_BOOKING: &str =
    "SELECT day, slot, state FROM bookings WHERE book = ?1 AND number = ?2";

/// Reads the bookings of the pledges of a range, which begins above ?2 and ends with ?3.
pub(crate) const READ_BOOKINGS_RANGE: &str = "\
    SELECT day, slot, state, number FROM bookings \
    WHERE book = ?1 AND number > ?2 AND number <= ?3 \
    ORDER BY number LIMIT 64";

/// Counts the bookings that are confirmed for a window of a day.
pub(crate) const COUNT_CONFIRMED: &str =
    "SELECT count(*) FROM bookings WHERE book = ?1 AND day = ?2 AND slot = ?3 AND state = 1";

/// Reads a page of the bookings that are confirmed for a window of a day, of pledges whose number is greater than ?2.
pub(crate) const READ_CONFIRMED_PAGE: &str = "\
    SELECT number FROM bookings WHERE book = ?1 AND number > ?2 AND day = ?3 \
    AND slot = ?4 AND state = 1 \
    ORDER BY number LIMIT 64";

/// Counts the bookings that are asked for a day.
pub(crate) const COUNT_ASKED: &str =
    "SELECT count(*) FROM bookings WHERE book = ?1 AND day = ?2 AND state = 0";

/// Reads a page of the bookings that are asked for a day, of pledges whose number is greater than ?2.
pub(crate) const READ_ASKED_PAGE: &str = "\
    SELECT number, slot FROM bookings WHERE book = ?1 AND number > ?2 AND day = ?3 \
    AND state = 0 \
    ORDER BY number LIMIT 64";

/// Reads the windows of a day that have a confirmed booking, each once.
pub(crate) const READ_WINDOWS: &str =
    "SELECT DISTINCT slot FROM bookings WHERE book = ?1 AND day = ?2 AND state = 1 AND slot < 16";

/// Inserts the booking of a pledge, or replaces the one that it has.
pub const PUT_BOOKING: &str = "\
    INSERT INTO bookings VALUES (?1, ?2, ?3, ?4, ?5) \
    ON CONFLICT (book, number) DO UPDATE SET day = excluded.day, slot = excluded.slot, \
    state = excluded.state";

// ---- totals

/// Makes the table of totals: what was owed on a day, the principal in pence and the charges in millionths of a penny.
pub const MAKE_TOTALS: &str = "\
    CREATE TABLE totals (\
    book INTEGER NOT NULL, \
    number INTEGER NOT NULL, \
    day INTEGER NOT NULL, \
    principal INTEGER NOT NULL, \
    charges INTEGER NOT NULL, \
    PRIMARY KEY (book, number), \
    FOREIGN KEY (book, number) REFERENCES pledges) STRICT";

/// Reads the totals of a pledge.
pub(crate) const READ_TOTALS: &str =
    "SELECT day, principal, charges FROM totals WHERE book = ?1 AND number = ?2";

/// Inserts the totals of a new pledge.
pub const PUT_TOTALS: &str = "INSERT INTO totals VALUES (?1, ?2, ?3, ?4, ?5)";

/// Sets the totals of a pledge, if any of them differs from the stored one.
pub const SET_TOTALS: &str = "\
    UPDATE totals SET day = ?3, principal = ?4, charges = ?5 \
    WHERE book = ?1 AND number = ?2 AND (day IS NOT ?3 OR principal IS NOT ?4 \
    OR charges IS NOT ?5)";

// ---- extensions

/// Makes the table of extensions.
pub const MAKE_EXTENSIONS: &str = "\
    CREATE TABLE extensions (\
    book INTEGER NOT NULL, \
    number INTEGER NOT NULL, \
    place INTEGER NOT NULL, \
    day INTEGER NOT NULL, \
    until_day INTEGER NOT NULL, \
    PRIMARY KEY (book, number, place), \
    FOREIGN KEY (book, number) REFERENCES pledges) STRICT";

/// Reads the extensions of a pledge.
pub(crate) const READ_EXTENSIONS: &str =
    "SELECT place, day, until_day FROM extensions WHERE book = ?1 AND number = ?2 ORDER BY place";

/// Reads a page of the extensions of a pledge, after a place.
pub(crate) const READ_EXTENSIONS_PAGE: &str = "\
    SELECT place, day, until_day FROM extensions WHERE book = ?1 AND number = ?2 AND place > ?3 \
    ORDER BY place LIMIT 64";

/// Reads a page of the extensions of the pledges of a range, which begins above ?2 and ends with ?3.
pub(crate) const READ_EXTENSIONS_RANGE: &str = "\
    SELECT place, day, until_day, number FROM extensions \
    WHERE book = ?1 AND number > ?2 AND number <= ?3 \
    ORDER BY number, place LIMIT 64";

/// Reads the extension of a pledge at a place.
pub(crate) const READ_EXTENSION: &str =
    "SELECT place, day, until_day FROM extensions WHERE book = ?1 AND number = ?2 AND place = ?3";

/// Reads the place of the last extension of a pledge.
pub(crate) const READ_LAST_PLACE: &str =
    "SELECT place FROM extensions WHERE book = ?1 AND number = ?2 ORDER BY place DESC LIMIT 1";

/// Inserts an extension of a pledge at its place.
pub const PUT_EXTENSION: &str = "INSERT INTO extensions VALUES (?1, ?2, ?3, ?4, ?5)";

// ---- notes: the schema, the limit on rows and their count

/// Makes the table of notes: the number of the schema, the limit on counted rows, and how many there are.
pub const MAKE_META: &str =
    "CREATE TABLE meta (name TEXT PRIMARY KEY NOT NULL, value INTEGER NOT NULL) STRICT";

/// Reads the number of the store's schema.
pub const READ_SCHEMA: &str = "SELECT value FROM meta WHERE name = 'schema'";

/// Reads the limit on counted rows.
pub const READ_LIMIT: &str = "SELECT value FROM meta WHERE name = 'limit'";

/// Reads how many counted rows there are.
pub(crate) const READ_ROWS: &str = "SELECT value FROM meta WHERE name = 'rows'";

/// Inserts a note: a number under a name.
pub const PUT_NOTE: &str = "INSERT INTO meta VALUES (?1, ?2)";

/// Changes the noted number of the schema.
pub const SET_SCHEMA: &str = "UPDATE meta SET value = ?1 WHERE name = 'schema'";

/// Adds to the noted count of rows, and returns the new count.
pub const ADD_ROWS: &str = "UPDATE meta SET value = value + ?1 WHERE name = 'rows' RETURNING value";
