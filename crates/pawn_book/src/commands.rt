//! Plans of commands on a pledge.
ghost use Rattle.pawn_book.specs.BookStep.{BookValue, bearer_commands, book_head, broker_commands, confirmed_booking};
ghost use Rattle.pawn_book.specs.BookStep.{outcome_of_step, live_at, pledge_from, pledge_in};
ghost use Rattle.pawn_book.specs.Common.{pledge_step};
ghost use Rattle.pawn_book.specs.Keeping.{IsQuiet, Reads};
ghost use Rattle.pawn_book.specs.Plans.{FindsRoom, IsOutcome, Plans, outcome_of};
ghost use Rattle.pawn_book.specs.Sound.{IsSound, IsWord};
ghost use Rattle.pawn_pledge.specs.Commands.{IsCommand};
ghost use Rattle.pawn_terms.specs.Calendar.{IsRequestDay};
ghost use Rattle.std.specs.FinMap.{get};
ghost use Rattle.std.specs.Prelude.{◌≡◌, Err, IfOk};

use crate::change::{BookHead, Change, Planned};
use crate::gates::{find_live, know_stamp, unwell_refusal};
use crate::keep::Keep;
use crate::refusal::Refusal;
use crate::reply::Reply;
use pawn_pledge::{
    Booking, BookingState, Command, Done, Number, Pledge, Receipt, Refusal as PledgeRefusal, Stamp,
};

/// Plans a broker's command on the pledge with this number.
pub(crate) fn plan_number<K: Keep>(
    keep: &mut K,
    book: Number,
    head: &BookHead,
    number: Number,
    stamp: &Stamp,
    command: &Command,
) -> Result<Planned, Refusal>
    requires within { IsCommand command.now }
    ensures reads { Reads K.keeping keep.old keep.new (λ h. IsSound h → (at : BookValue) → get h.books book ≡ Some at → head.now ≡ book_head at
        → Plans h book (broker_commands at book number stamp.now command.now (pledge_from 1 at.pledges number)) result) }
    ensures steady { IsQuiet K.keeping keep.old result }
{
    let pledge = match keep.pledge(book, number) {
        Err(error) => return Err(unwell_refusal(error)),
        Ok(None) => return Err(Refusal::NoSuchPledge),
        Ok(Some(pledge)) => pledge,
    };
    let planned = plan_command(book, number, pledge, stamp, command)?;
    find_room(keep, book, head, &planned)?;
    Ok(planned)
}

/// Plans a bearer's command on the pledge of a receipt. Refused as `NoSuchReceipt` if the receipt is not live.
pub(crate) fn plan_receipt<K: Keep>(
    keep: &mut K,
    book: Number,
    receipt: &Receipt,
    stamp: &Stamp,
    command: &Command,
) -> Result<Planned, Refusal>
    requires within { IsCommand command.now }
    ensures reads { Reads K.keeping keep.old keep.new (λ h. IsSound h → Plans h book (bearer_commands book receipt.now.number stamp.now command.now
        (live_at (pledge_in (get h.books book)) receipt.now)) result) }
    ensures steady { IsQuiet K.keeping keep.old result }
{
    match find_live(keep, book, receipt) {
        Err(error) => Err(unwell_refusal(error)),
        Ok(None) => Err(Refusal::NoSuchReceipt),
        Ok(Some(pledge)) => plan_command(book, receipt.number, pledge, stamp, command),
    }
}

/// Applies a command to a pledge, and plans to save the pledge if the command changed it.
fn plan_command(
    book: Number,
    number: Number,
    mut pledge: Pledge,
    stamp: &Stamp,
    command: &Command,
) -> Result<Planned, Refusal>
    ensures outcome { IsOutcome (outcome_of_step book number (pledge_step pledge stamp.now command.now)) result }
    ensures day { IsRequestDay stamp.now.day }
    ensures word { IsWord stamp.now.word }
    ensures store { result ≡ Err Refusal.Store → ⊥ }
{
    know_stamp(stamp);
    match pledge.apply_with_report(stamp, command) {
        Err(PledgeRefusal::Memory) => Err(Refusal::Memory),
        Err(refusal) => Err(Refusal::Pledge(refusal)),
        Ok(applied) => {
            let reply = Reply::Commanded {
                number,
                done: applied.done,
            };
            if !applied.changed {
                return Ok(Planned {
                    change: None,
                    reply,
                });
            }
            Ok(Planned {
                change: Some(Change::PutPledge {
                    book,
                    number,
                    pledge,
                }),
                reply,
            })
        }
    }
}

/// Checks that there is room for the booking that a plan confirms, if it confirms one. Refused as `WindowFull` if its
/// window is full.
fn find_room<K: Keep>(
    keep: &mut K,
    book: Number,
    head: &BookHead,
    planned: &Planned,
) -> Result<(), Refusal>
    ensures reads { Reads K.keeping keep.old keep.new (λ h. (at : BookValue) → get h.books book ≡ Some at → head.now ≡ book_head at
        → FindsRoom at (outcome_of planned.now.change planned.now.reply) result) }
    ensures steady { IsQuiet K.keeping keep.old result }
{
    let booking = match planned.change {
        None => None,
        Some(_) => confirmed_booking(planned.reply),
    };
    let Some(booking) = booking else {
        return Ok(());
    };
    match keep.confirmed_count(book, booking.day, booking.window) {
        Err(error) => Err(unwell_refusal(error)),
        Ok(confirmed) => {
            if confirmed >= u64::from(head.capacity.get()) {
                return Err(Refusal::WindowFull);
            }
            Ok(())
        }
    }
}

/// The booking that a reply reports as confirmed, if it reports one.
fn confirmed_booking(reply: Reply) -> Option<Booking>
    ensures value { result ≡ confirmed_booking reply }
{
    let Reply::Commanded { number: _, done } = reply else {
        return None;
    };
    let Done::Booked(booking) = done else {
        return None;
    };
    match booking.state {
        BookingState::Confirmed => Some(booking),
        _ => None,
    }
}
