//! The stamps of `pawnd serve`: the clock is read once for each of them.
ghost use Rattle.pawn_program.specs.Clock.{GivesDated, clock_day, day_of};
ghost use Rattle.pawn_terms.specs.Calendar.{IsRequestDay};
ghost use Rattle.std.specs.Prelude.{◌≡◌, ◌↔◌, ◌/◌, ℕ, IfSome, IsSome, Option};

use crate::words::Words;
use pawn_host::{Day, RequestDay, Stamp};
use std::time::{Clock, SystemTime, UNIX_EPOCH};

/// The number of seconds in a day; leap seconds are not counted.
const SECONDS_A_DAY: u64 = 86_400;

/// A clock that counts the seconds since the beginning of 1970 in UTC.
pub trait SecondsClock {
    // What a call may read from a clock, and the clock after the call.
    ghost reads: { Self → Option ℕ → Self → Type 0 };

    /// Reads the clock in whole seconds. Returns `None` if it can't be read, or if it shows a time before 1970.
    fn read(&mut self) -> Option<u64>
        ensures reads { reads self.old result self.new };
}

/// The machine's clock. No clause states what it shows.
#[derive(Drop)]
pub struct MachineClock<'a, C> {
    clock: &'a C,
}

impl<'a, C: Clock> MachineClock<'a, C> {
    /// Returns the clock of this machine.
    pub fn new(clock: &'a C) -> Self {
        MachineClock { clock }
    }
}

impl<'a, C: Clock> SecondsClock for MachineClock<'a, C> {
    ghost reads = { λ _ _ _. Unit {0} };

    fn read(&mut self) -> Option<u64> {
        let now = SystemTime::now(self.clock).ok()?;
        let since = now.duration_since(UNIX_EPOCH).ok()?;
        Some(since.as_secs())
    }
}

/// An endless iterator of stamps. The clock is read once for each stamp, and the stamp has the day of that reading and
/// the next word. If the clock can't be read, or shows a day that no request may have, the iterator returns no stamp
/// and keeps the next word for a later one.
#[derive(Drop)]
pub struct ClockStamps<C> {
    clock: C,
    pub(crate) words: Words,
}

impl<C: SecondsClock + Drop> ClockStamps<C> {
    /// Makes stamps with the days of this clock. Each takes the next of these words.
    pub fn new(clock: C, words: Words) -> Self
        ensures clock { result.clock ≡ clock }
        ensures words { result.words ≡ words }
    {
        ClockStamps { clock, words }
    }
}

impl<C: SecondsClock + Drop> Iterator for ClockStamps<C> {
    type Item = Stamp;

    ghost next_gives = { GivesDated C.reads };

    fn next(&mut self) -> Option<Stamp> {
        let reading = self.clock.read();
        let day = day_of(reading)?;
        Some(Stamp {
            day,
            word: self.words.next(),
        })
    }
}

/// Returns the day of a reading of the clock, if a request may have it.
fn day_of(reading: Option<u64>) -> Option<RequestDay>
    ensures day { result ≡ day_of reading }
{
    match reading {
        Some(seconds) => clock_day(seconds),
        None => None,
    }
}

/// Returns the day at this many seconds after the beginning of 1970, if a request may have it.
fn clock_day(seconds: u64) -> Option<RequestDay>
    ensures day { result ≡ clock_day seconds }
{
    let found = as_request_day(seconds / SECONDS_A_DAY);
    found
}

/// Returns the day with this number, if a request may have it.
fn as_request_day(number: u64) -> Option<RequestDay>
    ensures day { IfSome result (λ day. day ≡ number) }
    ensures succeeds { IsSome result ↔ IsRequestDay number }
{
    let number = i32::try_from(number).ok()?;
    let day = Day::of_number(number).ok()?;
    RequestDay::of_day(day).ok()
}
