//! Requests, by the caller that may send them.

ghost use Rattle.pawn_book.specs.Common.{IsText, IsUtf8};
ghost use Rattle.pawn_book.specs.Limits.{IsCapacity};
ghost use Rattle.pawn_book.specs.Plans.{IsBearerWrite, MayChange};
ghost use Rattle.pawn_book.specs.Sound.{IsWord};
ghost use Rattle.std.specs.Prelude.{◌≡◌, ◌↔◌, IfOk, IsTrue};

use crate::capacity::Capacity;
use crate::limits::MOST_NAME_BYTES;
use crate::receipts::Receipts;
use crate::replayable_rows::ReplayableRows;
use pawn_pledge::{
    BearerCommand, BrokerCommand, Number, Opening, Rates, Receipt, RequestDay, Secret, Text,
};
use std::alloc::AllocError;

/// A book's name: 1 to 60 bytes of text without control characters.
pub type Name = Text<MOST_NAME_BYTES>;

/// A request on one book.
#[derive(Drop)]
pub struct Request {
    pub book: Number,
    pub caller: Caller,
}

/// The caller and the request. Each kind of caller has requests of its own.
#[derive(Drop)]
pub enum Caller {
    /// The operator, who makes books. The key must be the operator's.
    Operator { key: Secret, new_book: NewBook },
    /// The broker, who runs a book. The key must be the book's.
    Broker { key: Secret, asked: BrokerRequest },
    /// The broker, who only asks for a view of the book. The key must be the book's.
    Viewer { key: Secret, view: View },
    /// A bearer, who presents receipts of the book.
    Bearer(BearerRequest),
}

impl Caller {
    /// Whether the request may change its book. A request that only shows something may not.
    pub fn writes(&self) -> bool
        ensures writes { IsTrue result ↔ MayChange self.now }
    {
        match self {
            Caller::Operator { .. } => true,
            Caller::Broker { .. } => true,
            Caller::Viewer { .. } => false,
            Caller::Bearer(asked) => asked.writes(),
        }
    }
}

/// A book to be made: the key of its broker, its name, and the most bookings that it confirms in one window of a day.
#[derive(Drop)]
pub struct NewBook {
    pub key: Secret,
    pub name: Name,
    pub capacity: Capacity,
}

impl NewBook {
    /// Gives a proof that the name, the capacity and the key are within their limits.
    fn know_limits(&self)
        ensures name { IsText MOST_NAME_BYTES self.now.name }
        ensures capacity { IsCapacity self.now.capacity }
        ensures utf8 { IsUtf8 self.now.name }
        ensures key { IsWord self.now.key }
    {
        let _ = self.name.as_str();
        let _ = self.capacity.get();
        let _ = self.key.word();
    }

    /// A copy of the new book. Fails only if memory runs out.
    pub fn copy(&self) -> Result<NewBook, AllocError>
        ensures same { IfOk result (λ new_book. new_book ≡ self.now) }
        ensures name { IsText MOST_NAME_BYTES self.now.name }
        ensures capacity { IsCapacity self.now.capacity }
        ensures utf8 { IsUtf8 self.now.name }
        ensures key { IsWord self.now.key }
    {
        self.know_limits();
        let name = self.name.copy()?;
        Ok(NewBook {
            key: self.key,
            name,
            capacity: self.capacity,
        })
    }
}

/// The requests of a broker that may change the book.
#[derive(Drop)]
pub enum BrokerRequest {
    PutTerms(NewTerms),
    TakePledge(Opening),
    /// A command on the pledge with this number.
    OnPledge {
        number: Number,
        command: BrokerCommand,
    },
    /// Fills the empty book with these rows. The key identifies the import, so that a repeat is recognised.
    Import {
        import_key: Secret,
        rows: ReplayableRows,
    },
}

/// The views that a broker may ask for.
#[derive(Clone, Copy)]
pub enum View {
    /// The statement of the pledge with this number.
    Pledge(Number),
    /// The sheet of this day.
    Sheet(RequestDay),
    /// The rows of the book: its terms and its pledges.
    Rows,
}

/// Terms for a version. `plan` checks them against their limits.
#[derive(Clone, Copy)]
pub struct NewTerms {
    pub version: u64,
    pub rates: Rates,
}

/// The requests of a bearer.
#[derive(Drop)]
pub enum BearerRequest {
    /// Shows the pledges of these receipts.
    Present(Receipts),
    /// A command on the pledge of this receipt.
    OnPledge {
        receipt: Receipt,
        command: BearerCommand,
    },
}

impl BearerRequest {
    /// Whether the request may change the book.
    fn writes(&self) -> bool
        ensures writes { IsTrue result ↔ IsBearerWrite self.now }
    {
        match self {
            BearerRequest::Present(_) => false,
            BearerRequest::OnPledge { .. } => true,
        }
    }
}
