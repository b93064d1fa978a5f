//! Reads the caller of a request and what is asked, from its fields and its body.
ghost use Rattle.pawn_wire.specs.Callers.{asks_said, key_given};
ghost use Rattle.pawn_wire.specs.Chain.{Says};
ghost use Rattle.pawn_wire.specs.Fields.{pairs_of};
ghost use Rattle.pawn_wire.specs.Types.{Create, Export, Import, OnPledge, OnReceipt, Present, PutTerms, Show, ShowDay};
ghost use Rattle.pawn_wire.specs.Types.{TakePledge};
ghost use Rattle.std.specs.Prelude.{◌≡◌, codes};

use crate::fields::{Fields, Found};
use crate::route::{BearerAction, BrokerAction};
use crate::target::Target;
use crate::{body, commands, member, receipts};
use pawn_book::{BearerRequest, BrokerRequest, Caller, Number, RequestDay, Secret, View};
use pawn_reply::WireFault;
use std::alloc::Global;

/// The parts of a request other than its method and target.
#[derive(Drop)]
pub(crate) struct Sent<'a> {
    pub fields: Fields<'a>,
    pub body: &'a [u8],
}

/// The caller and what is asked. For an import it is only the two keys, because its rows are read later.
#[derive(Drop)]
pub(crate) enum Asks {
    /// The caller, with all of what is asked.
    Whole(Caller),
    /// The broker's key, and the import's own key.
    Import { key: Secret, import_key: Secret },
}

/// Returns the key in the field of this name. Fails with `BadKey` if there is no such field, if there are several, or
/// if the key is malformed.
fn key_under(name: &[u8], fields: &Fields<'_>) -> Result<Secret, WireFault>
    ensures value { result ≡ key_given name.now (pairs_of fields.now) }
{
    match fields.find(name) {
        Found::One(value) => Secret::of_text(value).ok_or(WireFault::BadKey),
        Found::Missing => Err(WireFault::BadKey),
        Found::Several => Err(WireFault::BadKey),
    }
}

/// Returns the key in the field `Pledge-Key`.
fn pledge_key(fields: &Fields<'_>) -> Result<Secret, WireFault>
    ensures value { result ≡ key_given (codes "pledge-key") (pairs_of fields.now) }
{
    key_under(b"pledge-key", fields)
}

/// Reads a request of the operator to make a book.
fn create(alloc: Global, sent: &Sent<'_>) -> Result<Asks, WireFault>
    ensures value { Says result (asks_said Create (pairs_of sent.now.fields) sent.now.body.now) }
{
    let key = pledge_key(&sent.fields)?;
    let value = member::json(alloc, sent.body)?;
    let new_book = body::new_book(alloc, &value)?;
    Ok(Asks::Whole(Caller::Operator { key, new_book }))
}

/// Reads a broker's request to put terms.
fn put_terms(alloc: Global, sent: &Sent<'_>) -> Result<Asks, WireFault>
    ensures value { Says result (asks_said PutTerms (pairs_of sent.now.fields) sent.now.body.now) }
{
    let key = pledge_key(&sent.fields)?;
    let value = member::json(alloc, sent.body)?;
    let terms = body::new_terms(&value).ok_or(WireFault::BadBody)?;
    Ok(by_broker(key, BrokerRequest::PutTerms(terms)))
}

/// Returns the broker with this key and this request.
fn by_broker(key: Secret, asked: BrokerRequest) -> Asks
    ensures value { result ≡ Asks.Whole (Caller.Broker key asked) }
{
    Asks::Whole(Caller::Broker { key, asked })
}

/// Returns the broker who has this key, and asks for this view.
fn by_viewer(key: Secret, view: View) -> Asks
    ensures value { result ≡ Asks.Whole (Caller.Viewer key view) }
{
    Asks::Whole(Caller::Viewer { key, view })
}

/// Reads a broker's request to take a pledge.
fn take_pledge(alloc: Global, sent: &Sent<'_>) -> Result<Asks, WireFault>
    ensures value { Says result (asks_said TakePledge (pairs_of sent.now.fields) sent.now.body.now) }
{
    let key = pledge_key(&sent.fields)?;
    let value = member::json(alloc, sent.body)?;
    let opening = body::opening(alloc, &value)?;
    Ok(by_broker(key, BrokerRequest::TakePledge(opening)))
}

/// Reads a broker's request to show the pledge of this number.
fn show(number: Number, sent: &Sent<'_>) -> Result<Asks, WireFault>
    ensures value { Says result (asks_said (Show number) (pairs_of sent.now.fields) sent.now.body.now) }
{
    let key = pledge_key(&sent.fields)?;
    Ok(by_viewer(key, View::Pledge(number)))
}

/// Reads a broker's command for the pledge of this number.
fn command_pledge(
    alloc: Global,
    number: Number,
    action: BrokerAction,
    sent: &Sent<'_>,
) -> Result<Asks, WireFault>
    ensures value { Says result (asks_said (OnPledge number action) (pairs_of sent.now.fields) sent.now.body.now) }
{
    let key = pledge_key(&sent.fields)?;
    let command = commands::brokers_command(alloc, action, sent.body)?;
    Ok(by_broker(key, BrokerRequest::OnPledge { number, command }))
}

/// Reads a broker's request for a day's sheet.
fn show_day(day: RequestDay, sent: &Sent<'_>) -> Result<Asks, WireFault>
    ensures value { Says result (asks_said (ShowDay day) (pairs_of sent.now.fields) sent.now.body.now) }
{
    let key = pledge_key(&sent.fields)?;
    Ok(by_viewer(key, View::Sheet(day)))
}

/// Reads a broker's request to export the book.
fn export(sent: &Sent<'_>) -> Result<Asks, WireFault>
    ensures value { Says result (asks_said Export (pairs_of sent.now.fields) sent.now.body.now) }
{
    let key = pledge_key(&sent.fields)?;
    Ok(by_viewer(key, View::Rows))
}

/// Reads the two keys of an import: the broker's and the import's own.
fn import(sent: &Sent<'_>) -> Result<Asks, WireFault>
    ensures value { Says result (asks_said Import (pairs_of sent.now.fields) sent.now.body.now) }
{
    let key = pledge_key(&sent.fields)?;
    let import_key = key_under(b"import-key", &sent.fields)?;
    Ok(Asks::Import { key, import_key })
}

/// Reads a bearer's request to show the pledges of receipts.
fn present(alloc: Global, sent: &Sent<'_>) -> Result<Asks, WireFault>
    ensures value { Says result (asks_said Present (pairs_of sent.now.fields) sent.now.body.now) }
{
    let receipts = receipts::receipts(alloc, &sent.fields)?;
    Ok(Asks::Whole(Caller::Bearer(BearerRequest::Present(receipts))))
}

/// Reads a bearer's command for the pledge of a receipt.
fn command_receipt(alloc: Global, action: BearerAction, sent: &Sent<'_>) -> Result<Asks, WireFault>
    ensures value { Says result (asks_said (OnReceipt action) (pairs_of sent.now.fields) sent.now.body.now) }
{
    let receipt = receipts::one(&sent.fields)?;
    let command = commands::bearers_command(alloc, action, sent.body)?;
    Ok(Asks::Whole(Caller::Bearer(BearerRequest::OnPledge { receipt, command })))
}

/// Reads the caller and what is asked at a target: first the key or the receipts, then the body.
pub(crate) fn who_asks(alloc: Global, target: Target, sent: &Sent<'_>) -> Result<Asks, WireFault>
    ensures value { Says result (asks_said target (pairs_of sent.now.fields) sent.now.body.now) }
{
    match target {
        Target::Create => create(alloc, sent),
        Target::PutTerms => put_terms(alloc, sent),
        Target::TakePledge => take_pledge(alloc, sent),
        Target::Show(number) => show(number, sent),
        Target::OnPledge(number, action) => command_pledge(alloc, number, action, sent),
        Target::ShowDay(day) => show_day(day, sent),
        Target::Export => export(sent),
        Target::Import => import(sent),
        Target::Present => present(alloc, sent),
        Target::OnReceipt(action) => command_receipt(alloc, action, sent),
    }
}
