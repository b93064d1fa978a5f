//! What is asked by the target of a request.
ghost use Rattle.pawn_wire.specs.Named.{number_said};
ghost use Rattle.pawn_wire.specs.Target.{is_ascii_text, method_of, target_of, target_said};
ghost use Rattle.std.specs.Prelude.{◌≡◌, bytes_eq, option_copied};

use crate::member;
use crate::route::{BearerAction, BrokerAction, Endpoint};
use crate::router::Router;
use http::Method;
use pawn_book::{Number, RequestDay};
use std::str::from_utf8;

/// What is asked of a book, with the pledge or the day that the target names.
#[derive(Clone, Copy)]
pub(crate) enum Target {
    /// Make the book.
    Create,
    /// Put terms into it.
    PutTerms,
    /// Take a pledge into it.
    TakePledge,
    /// Show the pledge of this number.
    Show(Number),
    /// Apply a broker's command to the pledge of this number.
    OnPledge(Number, BrokerAction),
    /// Show the sheet of this day.
    ShowDay(RequestDay),
    /// Export its rows as text.
    Export,
    /// Import the rows of a text into it.
    Import,
    /// Show the pledges of receipts.
    Present,
    /// Apply a bearer's command to the pledge of a receipt.
    OnReceipt(BearerAction),
}

impl Target {
    /// Returns the only method that the target accepts.
    fn method(self) -> Method
        ensures value { result ≡ method_of self }
    {
        match self {
            Target::Present => Method::GET,
            Target::Show(_) => Method::GET,
            Target::ShowDay(_) => Method::GET,
            Target::Export => Method::GET,
            Target::Create => Method::POST,
            Target::PutTerms => Method::POST,
            Target::TakePledge => Method::POST,
            Target::Import => Method::POST,
            Target::OnPledge(_, _) => Method::POST,
            Target::OnReceipt(_) => Method::POST,
        }
    }

    /// Returns whether the target accepts this method.
    pub(crate) fn takes(self, method: &[u8]) -> bool
        ensures value { result ≡ bytes_eq (method_of self) method.now }
    {
        let own = self.method();
        own.as_str().as_bytes() == method
    }
}

/// A book, and what is asked of it.
#[derive(Clone, Copy)]
pub(crate) struct BookTarget {
    pub book: Number,
    pub target: Target,
}

/// Returns whether the text is ASCII.
fn is_ascii_text(text: &[u8]) -> bool
    ensures value { result ≡ is_ascii_text text.now }
{
    text.iter().all(|b| *b < 128)
}

/// Returns the number of a book or a pledge that a text writes in its only spelling: without a sign or leading zeros.
/// `None` for any other text.
fn number_said(text: &str) -> Option<Number>
    ensures value { result ≡ number_said text.now }
{
    Number::of_text(text.as_bytes())
}

/// Returns what is asked at an endpoint. `item` is the part of the target that names the pledge or the day.
fn target_said(endpoint: Endpoint, item: Option<&str>) -> Option<Target>
    ensures value { result ≡ target_said endpoint (option_copied item.entry) }
{
    match endpoint {
        Endpoint::Create => Some(Target::Create),
        Endpoint::PutTerms => Some(Target::PutTerms),
        Endpoint::TakePledge => Some(Target::TakePledge),
        Endpoint::Show => Some(Target::Show(number_said(item?)?)),
        Endpoint::OnPledge(action) => Some(Target::OnPledge(number_said(item?)?, action)),
        Endpoint::ShowDay => Some(Target::ShowDay(member::day_said(item?)?)),
        Endpoint::Export => Some(Target::Export),
        Endpoint::Import => Some(Target::Import),
        Endpoint::Present => Some(Target::Present),
        Endpoint::OnReceipt(action) => Some(Target::OnReceipt(action)),
    }
}

/// Returns what a target asks for. `None` if the service has no such target.
pub(crate) fn target_of(router: &Router, target: &[u8]) -> Option<BookTarget>
    ensures value { result ≡ target_of target.now }
{
    if !is_ascii_text(target) {
        return None;
    }
    let Ok(text) = from_utf8(target) else {
        return None;
    };
    let asked = router.find(text)?;
    let book = number_said(asked.book?)?;
    let target = target_said(asked.endpoint, asked.item)?;
    Some(BookTarget { book, target })
}
