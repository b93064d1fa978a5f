//! The changes of a book, and the plan of a request.

use crate::capacity::Capacity;
use crate::replayable_rows::ReplayableRows;
use crate::reply::Reply;
use crate::request::{Name, NewBook};
use pawn_pledge::{Number, Pledge, Secret, Terms};

/// The key of the import that filled a book, and the number of pledges that it brought.
#[derive(Clone, Copy, PartialEq, Eq)]
pub struct Imported {
    pub key: Secret,
    pub pledges: u64,
}

/// The data of a book without its terms and pledges, of which it has only the numbers.
#[derive(Drop)]
pub struct BookHead {
    pub key: Secret,
    pub name: Name,
    pub capacity: Capacity,
    pub terms: u64,
    pub pledges: u64,
    pub imported: Option<Imported>,
}

/// A change of one book.
#[derive(Drop)]
pub enum Change {
    /// A new book without terms and pledges.
    MakeBook {
        book: Number,
        new_book: NewBook,
    },
    /// The next version of its terms.
    AddTerms {
        book: Number,
        version: u64,
        terms: Terms,
    },
    /// The pledge with this number as it is after the change: a new pledge under the next number, or a changed pledge
    /// of the book.
    PutPledge {
        book: Number,
        number: Number,
        pledge: Pledge,
    },
    /// The rows that fill a book without terms and pledges, with the key of their import.
    ImportBook {
        book: Number,
        import_key: Secret,
        rows: ReplayableRows,
    },
}

/// The plan of a request: the change that it makes, if it makes one, and the reply to it.
#[derive(Drop)]
pub struct Planned {
    pub change: Option<Change>,
    pub reply: Reply,
}
