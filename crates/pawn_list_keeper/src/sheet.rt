//! The day's sheet of a book in the list: its items are found among the book's pledges and passed to a visitor.
ghost use Rattle.pawn_list_keeper.specs.Common.{HandsOver, asked_item, day_sheet, is_confirmed_for, part_item};
ghost use Rattle.pawn_list_keeper.specs.Common.{part_items, window_sheet, windows_sheet, with_head};
ghost use Rattle.pawn_pledge.specs.Words.{is_open};
ghost use Rattle.std.specs.Prelude.{◌≡◌, count_by, is_some};

use pawn_book::{
    Booking, BookingState, Closing, Day, Flow, Number, Pledge, SheetItem, SheetPart, Visitor,
};
use pawn_pledge::LAST_WINDOW;

/// Whether a booking for a day and a window is confirmed.
pub(crate) fn is_confirmed_for(booking: Option<Booking>, day: Day, window: u64) -> bool
    ensures value { result ≡ is_confirmed_for day window booking }
{
    match booking {
        None => false,
        Some(booking) => {
            booking.day == day
                && booking.window == window
                && booking.state == BookingState::Confirmed
        }
    }
}

/// The sheet's item for a booking, if it is asked, and for this day.
fn asked_item(number: Number, day: Day, booking: Option<Booking>) -> Option<SheetItem>
    ensures value { result ≡ asked_item number day booking }
{
    let booking = booking?;
    if booking.day == day && booking.state == BookingState::Asked {
        return Some(SheetItem::Asked {
            number,
            window: booking.window,
        });
    }
    None
}

/// Whether a pledge is neither redeemed nor sold.
fn is_open(closing: Closing) -> bool
    ensures value { result ≡ is_open closing }
{
    match closing {
        Closing::Open => true,
        Closing::Redeemed { .. } | Closing::Sold { .. } => false,
    }
}

/// The item of a pledge in a part of the sheet, if it has one there.
fn item_of(part: SheetPart, day: Day, pledge: &Pledge) -> Option<SheetItem>
    ensures value { result ≡ part_item part day pledge.now }
{
    let number = pledge.agreement().number;
    let standing = pledge.standing();
    match part {
        SheetPart::Confirmed { window } => {
            if is_confirmed_for(standing.booking, day, window) {
                return Some(SheetItem::Confirmed(number));
            }
            None
        }
        SheetPart::Asked => asked_item(number, day, standing.booking),
        SheetPart::Ends => {
            if is_open(standing.closing) && pledge.ends() == day {
                return Some(SheetItem::Ends(number));
            }
            None
        }
    }
}

/// How many pledges have an item in a part of the sheet.
fn count_of(part: SheetPart, day: Day, pledges: &[Pledge]) -> u64
    ensures value { result ≡ count_by (λ p. is_some (part_item part day p)) pledges.now }
{
    pledges
        .iter()
        .filter(|pledge| item_of(part, day, pledge).is_some())
        .count() as u64
}

/// Passes a part's items to the visitor until it answers `Stop`.
fn hand_part<V: Visitor<SheetItem>>(
    part: SheetPart,
    day: Day,
    pledges: &[Pledge],
    visitor: &mut V,
) -> Flow
    ensures hands { HandsOver V.step visitor.old (part_items part day pledges.now) result visitor.new }
{
    for pledge in pledges {
        if let Some(item) = item_of(part, day, pledge) {
            match visitor.visit(&item) {
                Flow::Go => {}
                Flow::Stop => return Flow::Stop,
            }
        }
    }
    Flow::Go
}

/// Passes the part's heading, which has the number of its items, and then the items, until the visitor answers `Stop`.
fn hand_headed<V: Visitor<SheetItem>>(
    part: SheetPart,
    day: Day,
    pledges: &[Pledge],
    visitor: &mut V,
) -> Flow
    ensures hands { HandsOver V.step visitor.old (with_head part (part_items part day pledges.now)) result visitor.new }
{
    let heading = part.heading(count_of(part, day, pledges));
    match visitor.visit(&heading) {
        Flow::Go => hand_part(part, day, pledges, visitor),
        Flow::Stop => Flow::Stop,
    }
}

/// Passes a window's heading and items to the visitor until it answers `Stop`; nothing if the window has no confirmed
/// booking.
fn hand_window<V: Visitor<SheetItem>>(
    window: u64,
    day: Day,
    pledges: &[Pledge],
    visitor: &mut V,
) -> Flow
    ensures hands { HandsOver V.step visitor.old (window_sheet pledges.now day window) result visitor.new }
{
    let part = SheetPart::Confirmed { window };
    if count_of(part, day, pledges) == 0 {
        return Flow::Go;
    }
    hand_headed(part, day, pledges, visitor)
}

/// Passes the headings and items of all windows to the visitor until it answers `Stop`.
fn hand_windows<V: Visitor<SheetItem>>(day: Day, pledges: &[Pledge], visitor: &mut V) -> Flow
    ensures hands { HandsOver V.step visitor.old (windows_sheet pledges.now day) result visitor.new }
{
    for window in 0..LAST_WINDOW + 1 {
        match hand_window(window, day, pledges, visitor) {
            Flow::Go => {}
            Flow::Stop => return Flow::Stop,
        }
    }
    Flow::Go
}

/// Passes a day's sheet to the visitor until it answers `Stop`: the windows, then the visits that are asked, then the
/// pledges whose period ends.
pub(crate) fn hand_sheet<V: Visitor<SheetItem>>(
    day: Day,
    pledges: &[Pledge],
    visitor: &mut V,
) -> Flow
    ensures hands { HandsOver V.step visitor.old (day_sheet pledges.now day) result visitor.new }
{
    match hand_windows(day, pledges, visitor) {
        Flow::Go => {}
        Flow::Stop => return Flow::Stop,
    }
    match hand_headed(SheetPart::Asked, day, pledges, visitor) {
        Flow::Go => {}
        Flow::Stop => return Flow::Stop,
    }
    hand_headed(SheetPart::Ends, day, pledges, visitor)
}
