//! The commands on a pledge, who may send them, and their answers.

ghost use Rattle.pawn_pledge.specs.Commands.{IsCommand, is_brokers, is_bearers};
ghost use Rattle.std.specs.Prelude.{◌≡◌, true, false, if◌then◌else◌};

use crate::record::Booking;
use crate::secret::Secret;
use pawn_debt::{Day, Entry};
use pawn_terms::RequestDay;
use std::marker::Model;

/// The day and the random 128-bit word of a request. If the request issues a receipt, the word is the receipt's secret.
#[derive(Clone, Copy, PartialEq, Eq)]
pub struct Stamp {
    pub day: RequestDay,
    pub word: u128,
}

/// The declaration of a claimant who does not have the receipt.
#[derive(Clone, Copy)]
pub enum Paper {
    /// A statutory declaration.
    Sworn,
    /// A signed written statement.
    Written,
}

/// A broker's decision on a booking.
#[derive(Clone, Copy)]
pub enum Decision {
    Confirm,
    Refuse,
}

/// A command on a pledge. Sums are in pence; `seq` is the number of the entry, from 1.
#[derive(Clone, Copy)]
pub enum Command {
    Draw { seq: u64, pence: u64 },
    Repay { seq: u64, pence: u64 },
    /// Puts the pledge on hold, so that it cannot be redeemed.
    Hold,
    /// Ends the hold.
    Release,
    Declare(Paper),
    AskBooking { day: RequestDay, window: u64 },
    CancelBooking,
    DecideBooking(Decision),
    Redeem { paid: u64 },
    Sell { net: u64 },
    Extend { until: RequestDay },
}

impl Command {
    /// Whether a broker may send the command.
    fn is_brokers(&self) -> bool
        ensures value { result ≡ is_brokers self.now }
    {
        match self {
            Command::Draw { .. }
            | Command::Repay { .. }
            | Command::Hold
            | Command::Release
            | Command::Declare(_)
            | Command::DecideBooking(_)
            | Command::Sell { .. }
            | Command::Extend { .. } => true,
            _ => false,
        }
    }

    /// Whether the bearer of a live receipt may send the command.
    fn is_bearers(&self) -> bool
        ensures value { result ≡ is_bearers self.now }
    {
        match self {
            Command::Repay { .. }
            | Command::AskBooking { .. }
            | Command::CancelBooking
            | Command::Redeem { .. } => true,
            _ => false,
        }
    }

    /// Reads the days of the command, which gives a proof that a request may name them.
    fn know_days(&self)
        ensures within { IsCommand self.now }
    {
        match self {
            Command::AskBooking { day, .. } => {
                let _ = day.day();
            }
            Command::Extend { until } => {
                let _ = until.day();
            }
            _ => {}
        }
    }
}

/// A command that a broker may send. In contracts the value is the command.
#[derive(Clone, Copy)]
pub struct BrokerCommand {
    command: Command,
}

impl Model for BrokerCommand {
    ghost use Rattle.pawn_pledge.specs.Commands.{IsCommand, is_brokers};
    ghost use Rattle.pawn_pledge.specs.declared.command.Command.{Command};
    ghost use Rattle.std.specs.Prelude.{◌≡◌, true};

    ghost Value = { Command };

    ghost view = { λ c. c.command };

    ghost invariant = { λ c. (is_brokers c.command ≡ true) × IsCommand c.command };

    ghost inverse = { λ command. record { command = command } };
}

impl TryFrom<Command> for BrokerCommand {
    ghost use Rattle.std.specs.Prelude.{Ok, Err};

    type Error = Command;

    ghost try_from_gives = { λ command result. result
        ≡ (if is_brokers command then Ok command else Err command) };

    /// The command, if a broker may send it; otherwise the command is returned as the error.
    fn try_from(command: Command) -> Result<BrokerCommand, Command> {
        command.know_days();
        if command.is_brokers() {
            Ok(BrokerCommand { command })
        } else {
            Err(command)
        }
    }
}

impl BrokerCommand {
    /// The command.
    pub fn command(self) -> Command
        ensures same { result ≡ self }
        ensures within { IsCommand result }
        ensures allowed { is_brokers result ≡ true }
    {
        self.command
    }
}

/// A command that the bearer of a live receipt may send. In contracts the value is the command.
#[derive(Clone, Copy)]
pub struct BearerCommand {
    command: Command,
}

impl Model for BearerCommand {
    ghost use Rattle.pawn_pledge.specs.Commands.{IsCommand, is_bearers};
    ghost use Rattle.pawn_pledge.specs.declared.command.Command.{Command};
    ghost use Rattle.std.specs.Prelude.{◌≡◌, true};

    ghost Value = { Command };

    ghost view = { λ c. c.command };

    ghost invariant = { λ c. (is_bearers c.command ≡ true) × IsCommand c.command };

    ghost inverse = { λ command. record { command = command } };
}

impl TryFrom<Command> for BearerCommand {
    ghost use Rattle.std.specs.Prelude.{Ok, Err};

    type Error = Command;

    ghost try_from_gives = { λ command result. result
        ≡ (if is_bearers command then Ok command else Err command) };

    /// The command, if a bearer may send it; otherwise the command is returned as the error.
    fn try_from(command: Command) -> Result<BearerCommand, Command> {
        command.know_days();
        if command.is_bearers() {
            Ok(BearerCommand { command })
        } else {
            Err(command)
        }
    }
}

impl BearerCommand {
    /// The command.
    pub fn command(self) -> Command
        ensures same { result ≡ self }
        ensures within { IsCommand result }
        ensures allowed { is_bearers result ≡ true }
    {
        self.command
    }
}

/// The answer to an accepted command. Sums are in pence.
#[derive(Clone, Copy, PartialEq, Eq)]
pub enum Done {
    Entered(Entry),
    /// Whether the pledge is on hold.
    Held(bool),
    /// The secret of the new receipt.
    Declared(Secret),
    Booked(Booking),
    Redeemed {
        day: Day,
        paid: u64,
    },
    /// The net sum of a sale, its surplus over the sum owed, and its shortfall below it.
    Sold {
        net: u64,
        surplus: u64,
        shortfall: u64,
    },
    /// The end of the period.
    Extended {
        until: Day,
    },
}

/// The answer to an accepted command, and whether the command changed the pledge.
#[derive(Clone, Copy)]
pub struct Applied {
    pub done: Done,
    pub changed: bool,
}

impl Applied {
    /// An answer without a change.
    pub(crate) fn of_answer(done: Done) -> Applied
        ensures value { result ≡ record { done = done; changed = false } }
    {
        Applied {
            done,
            changed: false,
        }
    }

    /// An answer with a change.
    pub(crate) fn of_change(done: Done) -> Applied
        ensures value { result ≡ record { done = done; changed = true } }
    {
        Applied {
            done,
            changed: true,
        }
    }
}
