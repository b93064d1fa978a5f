//! Reads the JSON bodies of commands.
ghost use Rattle.pawn_pledge.specs.Commands.{is_brokers, is_bearers};
ghost use Rattle.pawn_wire.specs.Chain.{GivesPart};
ghost use Rattle.pawn_wire.specs.Commands.{asked_booking, asked_entry, bearers_command_said, brokers_command_said};
ghost use Rattle.pawn_wire.specs.Commands.{decision_by, decision_of, paper_named, paper_of};
ghost use Rattle.pawn_wire.specs.Member.{body_said, day_at, number_at};
ghost use Rattle.pawn_wire.specs.Types.{BadBody};
ghost use Rattle.std.specs.Prelude.{◌≡◌, true};

use crate::member;
use crate::route::{BearerAction, BrokerAction};
use pawn_book::{BearerCommand, BrokerCommand, Command, Decision, Paper, RequestDay};
use pawn_reply::WireFault;
use std::alloc::Global;

/// An entry to be made: its number within the pledge, and its sum in pence.
#[derive(Clone, Copy)]
pub(crate) struct NewEntry {
    pub seq: u64,
    pub pence: u64,
}

/// A booking that is asked for: its day and its window.
#[derive(Clone, Copy)]
pub(crate) struct NewBooking {
    pub day: RequestDay,
    pub window: u64,
}

/// Reads the entry that a body asks for.
fn entry(alloc: Global, body: &[u8]) -> Result<NewEntry, WireFault>
    ensures value { GivesPart BadBody result (body_said asked_entry body.now) }
{
    let value = member::json(alloc, body)?;
    let pence = member::number(&value, "pence").ok_or(WireFault::BadBody)?;
    let seq = member::number(&value, "seq").ok_or(WireFault::BadBody)?;
    Ok(NewEntry { seq, pence })
}

/// Reads the member of this name as a whole number of at most 12 digits.
fn number(alloc: Global, body: &[u8], name: &str) -> Result<u64, WireFault>
    ensures value { GivesPart BadBody result (body_said (number_at name.now) body.now) }
{
    let value = member::json(alloc, body)?;
    member::number(&value, name).ok_or(WireFault::BadBody)
}

/// Reads the member of this name as a day.
fn day(alloc: Global, body: &[u8], name: &str) -> Result<RequestDay, WireFault>
    ensures value { GivesPart BadBody result (body_said (day_at name.now) body.now) }
{
    let value = member::json(alloc, body)?;
    member::day(&value, name).ok_or(WireFault::BadBody)
}

/// Returns the kind of declaration with this name.
fn paper_named(word: &str) -> Option<Paper>
    ensures value { result ≡ paper_named word.now }
{
    match word {
        "sworn" => Some(Paper::Sworn),
        "written" => Some(Paper::Written),
        _ => None,
    }
}

/// Reads the kind of declaration that a body names: `sworn` or `written`.
fn paper(alloc: Global, body: &[u8]) -> Result<Paper, WireFault>
    ensures value { GivesPart BadBody result (body_said paper_of body.now) }
{
    let value = member::json(alloc, body)?;
    let Some(word) = member::string(&value, "paper") else {
        return Err(WireFault::BadBody);
    };
    paper_named(word).ok_or(WireFault::BadBody)
}

/// Returns the decision to confirm a booking if `yes` is true, otherwise to refuse it.
fn decision_by(yes: bool) -> Decision
    ensures value { result ≡ decision_by yes }
{
    if yes {
        Decision::Confirm
    } else {
        Decision::Refuse
    }
}

/// Reads the broker's decision on a booking: the member `yes` is true to confirm it.
fn decision(alloc: Global, body: &[u8]) -> Result<Decision, WireFault>
    ensures value { GivesPart BadBody result (body_said decision_of body.now) }
{
    let value = member::json(alloc, body)?;
    let yes = member::flag(&value, "yes").ok_or(WireFault::BadBody)?;
    Ok(decision_by(yes))
}

/// Reads the booking that a body asks for.
fn booking(alloc: Global, body: &[u8]) -> Result<NewBooking, WireFault>
    ensures value { GivesPart BadBody result (body_said asked_booking body.now) }
{
    let value = member::json(alloc, body)?;
    let day = member::day(&value, "day").ok_or(WireFault::BadBody)?;
    let window = member::number(&value, "window").ok_or(WireFault::BadBody)?;
    Ok(NewBooking { day, window })
}

/// Returns the command as one that a broker may send.
fn by_broker(command: Command) -> BrokerCommand
    requires allowed { is_brokers command ≡ true }
    ensures same { result ≡ command }
{
    BrokerCommand::try_from(command).unwrap()
}

/// Returns the command as one that the bearer of a receipt may send.
fn by_bearer(command: Command) -> BearerCommand
    requires allowed { is_bearers command ≡ true }
    ensures same { result ≡ command }
{
    BearerCommand::try_from(command).unwrap()
}

/// Reads the command for a broker's action, with the details in its body. `Hold` and `Release` ignore the body.
pub(crate) fn brokers_command(
    alloc: Global,
    action: BrokerAction,
    body: &[u8],
) -> Result<BrokerCommand, WireFault>
    ensures value { GivesPart BadBody result (brokers_command_said action body.now) }
{
    match action {
        BrokerAction::Draw => {
            let NewEntry { seq, pence } = entry(alloc, body)?;
            Ok(by_broker(Command::Draw { seq, pence }))
        }
        BrokerAction::Repay => {
            let NewEntry { seq, pence } = entry(alloc, body)?;
            Ok(by_broker(Command::Repay { seq, pence }))
        }
        BrokerAction::Hold => Ok(by_broker(Command::Hold)),
        BrokerAction::Release => Ok(by_broker(Command::Release)),
        BrokerAction::Declare => {
            let paper = paper(alloc, body)?;
            Ok(by_broker(Command::Declare(paper)))
        }
        BrokerAction::Decide => {
            let decision = decision(alloc, body)?;
            Ok(by_broker(Command::DecideBooking(decision)))
        }
        BrokerAction::Sell => {
            let net = number(alloc, body, "net")?;
            Ok(by_broker(Command::Sell { net }))
        }
        BrokerAction::Extend => {
            let until = day(alloc, body, "until")?;
            Ok(by_broker(Command::Extend { until }))
        }
    }
}

/// Reads the command for a bearer's action, with the details in its body. `Cancel` ignores the body.
pub(crate) fn bearers_command(
    alloc: Global,
    action: BearerAction,
    body: &[u8],
) -> Result<BearerCommand, WireFault>
    ensures value { GivesPart BadBody result (bearers_command_said action body.now) }
{
    match action {
        BearerAction::Repay => {
            let NewEntry { seq, pence } = entry(alloc, body)?;
            Ok(by_bearer(Command::Repay { seq, pence }))
        }
        BearerAction::Ask => {
            let NewBooking { day, window } = booking(alloc, body)?;
            Ok(by_bearer(Command::AskBooking { day, window }))
        }
        BearerAction::Cancel => Ok(by_bearer(Command::CancelBooking)),
        BearerAction::Redeem => {
            let paid = number(alloc, body, "paid")?;
            Ok(by_bearer(Command::Redeem { paid }))
        }
    }
}
