//! The keeper `TableKeep`, and its implementation of `Keep`.
ghost use Rattle.pawn_table_keeper.specs.Common.{state, Reads};
ghost use Rattle.pawn_tables.specs.Keeps.{keeping_by};
ghost use Rattle.std.proofs.Props.{props};
ghost use Rattle.std.specs.Prelude.{◌≡◌, IfErr, IfOk, IsTrue, false, unwrap_or};

mod exports;
mod handing;
mod list_pages;
mod sheets;

use one_table::know_settled;
use pawn_book::{
    BookHead, Brief, Change, Day, Entry, Extension, Flow, Keep, KeepError, MOST_PLEDGES, Number,
    Pledge, Reference, RowItem, SaveError, SheetItem, StoreFault, Terms, Visitor,
};
use pawn_saving::save;
use pawn_tables::{
    brief_in, confirmed_in, further_brief_in, head_in, next_in, pledge_of, ref_in, rows_in,
    terms_under,
};
use sqlite::{Alter, Connection, Error, ErrorCode};
use std::alloc::Global;

/// The error for a list that is longer than any list of a sound book can be.
const TOO_MANY: KeepError = KeepError::Store(StoreFault::NoRecord);

/// The error for a number that does not fit in 32 bits.
const BEYOND: KeepError = KeepError::Store(StoreFault::Database);

/// A keeper that has its books in the tables of a database. Between calls no transaction is under way.
#[derive(Drop)]
pub struct TableKeep<S: Alter> {
    alloc: Global,
    conn: Connection<S>,
    ghost rests: { conn.in_transaction ≡ false } by { Prim.hlevel props },
}

impl<S: Alter> TableKeep<S> {
    /// Makes a keeper over a connection. If a transaction is under way, the error is the connection.
    pub fn over(alloc: Global, conn: Connection<S>) -> Result<TableKeep<S>, Connection<S>>
        ensures same { IfOk result (λ k. k.conn ≡ conn) }
        ensures refused { IfErr result (λ back. (back ≡ conn) × IsTrue conn.in_transaction) }
    {
        if conn.is_autocommit() {
            Ok(TableKeep { alloc, conn })
        } else {
            Err(conn)
        }
    }

    /// Returns the keeper's connection. No transaction is under way on it.
    pub fn into_connection(self) -> Connection<S>
        ensures same { result ≡ self.conn }
        ensures rests { result.in_transaction ≡ false }
    {
        self.conn
    }

    /// If this returns true, a fault has shut the store, which then answers no request until it is opened again. The
    /// body prepares an empty statement, which a shut store refuses as closed. Nothing stored changes. No contract
    /// states that the answer is true for every shut store.
    pub fn is_shut(&mut self) -> bool
        ensures reads { Reads (keeping_by (λ k. state S.Store k.conn)) self.old self.new (λ h. Unit {0}) }
        ensures shut { IsTrue result → (state S.Store self.new.conn).is_open ≡ false }
    {
        know_settled(&self.conn);
        match self.conn.prepare("") {
            Err(Error::SqliteFailure(ErrorCode::Closed)) => true,
            _ => false,
        }
    }
}

impl<S: Alter> Keep for TableKeep<S> {
    ghost use Rattle.pawn_tables.specs.Keeps.{keeping_by};
    ghost use Rattle.sqlite.specs.Held.{state};

    ghost keeping = { keeping_by (λ k. state S.Store k.conn) };

    fn book_head(&mut self, book: Number) -> Result<Option<BookHead>, KeepError> {
        know_settled(&self.conn);
        let mut tx = self.conn.transaction();
        let head = head_in(&mut tx, self.alloc, book.get());
        tx.rollback();
        head
    }

    fn terms(&mut self, book: Number, version: u64) -> Result<Option<Terms>, KeepError> {
        know_settled(&self.conn);
        let mut tx = self.conn.transaction();
        let terms = terms_under(&mut tx, book.get(), version);
        tx.rollback();
        terms
    }

    fn pledge(&mut self, book: Number, number: Number) -> Result<Option<Pledge>, KeepError> {
        know_settled(&self.conn);
        let mut tx = self.conn.transaction();
        let pledge = pledge_of(&mut tx, self.alloc, book.get(), number);
        tx.rollback();
        pledge
    }

    fn find_ref(
        &mut self,
        book: Number,
        reference: &Reference,
    ) -> Result<Option<Number>, KeepError> {
        know_settled(&self.conn);
        let text = reference.as_str();
        let mut tx = self.conn.transaction();
        let number = ref_in(&mut tx, book.get(), text);
        tx.rollback();
        number
    }

    fn confirmed_count(&mut self, book: Number, day: Day, window: u64) -> Result<u64, KeepError> {
        know_settled(&self.conn);
        let mut tx = self.conn.transaction();
        let count = confirmed_in(&mut tx, book.get(), day, window);
        tx.rollback();
        count
    }

    fn walk<V: Visitor<Pledge>>(&mut self, book: Number, visitor: &mut V) -> Result<(), KeepError> {
        for place in 0..MOST_PLEDGES + 1 {
            let Some(number) = Number::new(place + 1) else {
                return Err(BEYOND);
            };
            let Some(pledge) = self.pledge(book, number)? else {
                return Ok(());
            };
            match visitor.visit(&pledge) {
                Flow::Go => {}
                Flow::Stop => return Ok(()),
            }
        }
        Err(TOO_MANY)
    }

    fn next_book(&mut self, after: Option<Number>) -> Result<Option<Number>, KeepError> {
        know_settled(&self.conn);
        let above = bound(after);
        let mut tx = self.conn.transaction();
        let next = next_in(&mut tx, above);
        tx.rollback();
        next
    }

    fn brief(&mut self, book: Number, number: Number) -> Result<Option<Brief>, KeepError> {
        know_settled(&self.conn);
        let mut tx = self.conn.transaction();
        let brief = brief_in(&mut tx, self.alloc, book.get(), number);
        tx.rollback();
        brief
    }

    fn further_brief(
        &mut self,
        book: Number,
        number: Number,
        known: &Brief,
    ) -> Result<Option<Brief>, KeepError> {
        know_settled(&self.conn);
        let mut tx = self.conn.transaction();
        let brief = further_brief_in(&mut tx, self.alloc, book.get(), number, known);
        tx.rollback();
        brief
    }

    fn entries<V: Visitor<Entry>>(
        &mut self,
        book: Number,
        number: Number,
        visitor: &mut V,
    ) -> Result<(), KeepError> {
        self.hand_entries(book, number, visitor)?;
        Ok(())
    }

    fn extensions<V: Visitor<Extension>>(
        &mut self,
        book: Number,
        number: Number,
        visitor: &mut V,
    ) -> Result<(), KeepError> {
        self.hand_extensions(book, number, visitor)?;
        Ok(())
    }

    fn sheet_each<V: Visitor<SheetItem>>(
        &mut self,
        book: Number,
        day: Day,
        visitor: &mut V,
    ) -> Result<(), KeepError> {
        self.hand_sheet(book, day, visitor)?;
        Ok(())
    }

    fn rows_each<V: Visitor<RowItem>>(
        &mut self,
        book: Number,
        visitor: &mut V,
    ) -> Result<(), KeepError> {
        self.hand_rows(book, visitor)?;
        Ok(())
    }

    fn rows(&mut self) -> Result<u64, KeepError> {
        know_settled(&self.conn);
        let mut tx = self.conn.transaction();
        let count = rows_in(&mut tx);
        tx.rollback();
        count
    }

    fn save(&mut self, change: &Change) -> Result<(), SaveError> {
        save(&mut self.conn, change)
    }

    ghost use Rattle.pawn_tables.proofs.OneHost.{tables_whole_is_sound};

    ghost whole_is_sound = { tables_whole_is_sound _ };
}

/// The number itself, or 0 if there is none: the next book has a greater number.
fn bound(after: Option<Number>) -> u32
    ensures value { result ≡ unwrap_or after 0 }
{
    match after {
        Some(number) => number.get(),
        None => 0,
    }
}
