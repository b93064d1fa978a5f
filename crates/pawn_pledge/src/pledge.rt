//! `Pledge`, one pledge with its record and its debt.

ghost use Rattle.pawn_pledge.specs.Brief.{brief_of};
ghost use Rattle.pawn_pledge.specs.Common.{IsChecked, IsRequestDay, IsOwed, due, last_of, most_millionths, most_pence};
ghost use Rattle.pawn_pledge.specs.Common.{owing_of, totals_of};
ghost use Rattle.pawn_pledge.specs.Number.{IsNumber};
ghost use Rattle.pawn_pledge.specs.Pledge.{status_of, open_status, last_secret, live_of, end_of, debt_of};
ghost use Rattle.pawn_pledge.specs.Replayable.{IsOpening, IsReachable};
ghost use Rattle.pawn_pledge.specs.Step.{pledge_start, IsStarted};
ghost use Rattle.std.specs.Prelude.{◌≡◌, ◌≤◌, ◌↔◌, IsTrue, Some, OnErr, IfOk, IfErr, length};

mod steps;

use crate::brief::{Brief, BriefFields, Counts};
use crate::command::Stamp;
use crate::number::Number;
use crate::parts::{Parts, validate};
use crate::record::{
    Agreement, Closing, Extension, Extensions, Issue, Issued, Opening, Secrets, Standing, Status,
};
use crate::refusal::Refusal;
use crate::secret::Secret;
use crate::status::{status_by, status_under};
use pawn_debt::{Day, Debt, Entry, Owing, Terms, Totals};
use std::alloc::{AllocError, Global};
use std::marker::Model;

/// One pledge. In contracts the value is its record.
#[derive(Drop)]
pub struct Pledge {
    agreement: Agreement,
    debt: Debt,
    secrets: Secrets,
    extensions: Extensions,
    standing: Standing,
}

impl Model for Pledge {
    ghost use Rattle.pawn_pledge.specs.Kept.{IsPledgeKept};
    ghost use Rattle.pawn_pledge.specs.declared.parts.Parts.{Parts};

    ghost Value = { Parts };

    ghost view = { λ a. record {
      agreement = a.agreement;
      entries = a.debt.entries;
      secrets =
          a.secrets;
      extensions = a.extensions;
      standing = a.standing;
    } };

    ghost invariant = { λ a. IsPledgeKept (record {
      agreement = a.agreement;
      entries = a.debt.entries;
      secrets = a.secrets;
      extensions =
          a.extensions;
      standing = a.standing;
    }) a.debt };
}

/// Gives a proof that the data of a new pledge is within its limits.
fn know_start(number: Number, opening: &Opening, terms: Terms, stamp: &Stamp)
    ensures number { IsNumber number }
    ensures opening { IsOpening opening.now }
    ensures terms { IsChecked terms }
    ensures day { IsRequestDay stamp.now.day }
{
    let _ = (terms.rates(), stamp.day.day());
    number.know_limits();
    opening.know_limits();
}

impl Pledge {
    /// A new pledge, taken on the stamp's day, whose first secret is the stamp's word. `BadAmount` if its sum or limit
    /// is 0 or above `MOST_PENCE`, and `Memory` if memory runs out. `version` is the version of `terms` in the book.
    pub fn start(
        alloc: Global,
        number: Number,
        opening: Opening,
        version: u64,
        terms: Terms,
        stamp: &Stamp,
    ) -> Result<Pledge, Refusal>
        ensures started { IsStarted (pledge_start number opening version terms stamp.now) result }
        ensures reachable { IfOk result IsReachable }
    {
        know_start(number, &opening, terms, stamp);
        Pledge::of_opening(alloc, number, opening, version, terms, stamp)
    }

    /// Does the same as `start`, with a contract that states nothing about limits.
    fn of_opening(
        alloc: Global,
        number: Number,
        opening: Opening,
        version: u64,
        terms: Terms,
        stamp: &Stamp,
    ) -> Result<Pledge, Refusal>
        ensures started { IsStarted (pledge_start number opening version terms stamp.now) result }
    {
        let taken = stamp.day.day();
        let agreement = Agreement {
            number,
            opening,
            taken,
            version,
            terms: terms.rates(),
        };
        let ends = agreement.end_with(None);
        let debt = Debt::start(alloc, agreement.opening.kind, terms, taken, ends)?;
        let mut secrets = Secrets::new(alloc);
        let first = Issued {
            day: taken,
            sort: Issue::Opening,
            secret: Secret::of_word(stamp.word),
        };
        if secrets.push(first).is_err() {
            return Err(Refusal::Memory);
        }
        Ok(Pledge {
            agreement,
            debt,
            secrets,
            extensions: Extensions::new(alloc),
            standing: Standing {
                held: false,
                booking: None,
                last: taken,
                closing: Closing::Open,
            },
        })
    }

    /// The status of the pledge on a day.
    pub fn status(&self, day: Day) -> Status
        ensures value { result ≡ status_of self.now day }
    {
        status_under(
            &self.agreement,
            self.standing.closing,
            self.debt.ends(),
            day,
        )
    }

    /// The status on a day, as if the pledge were not closed.
    fn open_status(&self, day: Day) -> Status
        ensures value { result ≡ open_status self.now day }
    {
        status_by(&self.agreement, self.debt.ends(), day)
    }

    /// Whether a secret is the live one: the last that was issued, until the pledge is redeemed.
    pub fn is_live(&self, secret: &Secret) -> bool
        ensures answer { IsTrue result ↔ (live_of self.now ≡ Some secret.now) }
    {
        self.live() == Some(*secret)
    }

    /// The live secret, unless the pledge is redeemed.
    pub fn live(&self) -> Option<Secret>
        ensures value { result ≡ live_of self.now }
    {
        self.standing.closing.live_secret(Some(self.last_secret()))
    }

    /// The last secret that was issued.
    fn last_secret(&self) -> Secret
        ensures value { last_secret self.now.secrets ≡ Some result }
    {
        let issued = self.secrets.as_slice();
        issued[issued.len() - 1].secret
    }

    /// The agreement: the opening, with the number, the day and the terms of the pledge.
    pub fn agreement(&self) -> &Agreement
        ensures value { result.now ≡ self.now.agreement }
    {
        &self.agreement
    }

    /// The pledge's hold, its booking, the day of its last change, and its closing.
    pub fn standing(&self) -> &Standing
        ensures value { result.now ≡ self.now.standing }
        ensures after { last_of self.now.agreement.taken self.now.entries ≤ result.now.last }
    {
        &self.standing
    }

    /// The drawings and repayments, in order.
    pub fn entries(&self) -> &[Entry]
        ensures value { result.now ≡ self.now.entries }
    {
        self.debt.entries()
    }

    /// The issued secrets, in order.
    pub fn secrets(&self) -> &[Issued]
        ensures value { result.now ≡ self.now.secrets }
        ensures some { 1 ≤ length result.now }
    {
        self.secrets.as_slice()
    }

    /// The extensions of the period, in order.
    pub fn extensions(&self) -> &[Extension]
        ensures value { result.now ≡ self.now.extensions }
    {
        self.extensions.as_slice()
    }

    /// The end of the period.
    pub fn ends(&self) -> Day
        ensures value { result ≡ end_of self.now }
    {
        self.debt.ends()
    }

    /// The sum owed in whole pence on a day that is not before the last entry, nor before the day taken.
    pub fn owing(&self, day: Day) -> Owing
        requires later { last_of self.now.agreement.taken self.now.entries ≤ day }
        ensures value { result ≡ owing_of (due (debt_of self.now) day) }
    {
        self.debt.owing(day)
    }

    /// The totals on the day of the last entry, or on the day taken if there is no entry: principal in pence, charges
    /// in millionths of a penny.
    pub fn totals(&self) -> Totals
        ensures value { result ≡ totals_of (debt_of self.now) }
        ensures principal_in { result.principal ≤ most_pence }
        ensures millionths_in { result.millionths ≤ most_millionths }
    {
        self.debt.totals()
    }

    /// A copy of the pledge. Fails only if memory runs out.
    pub fn copy(&self) -> Result<Pledge, AllocError>
        ensures ok { IfOk result (λ p. p ≡ self.now) }
    {
        let agreement = self.agreement.copy()?;
        let debt = self.debt.copy()?;
        let secrets = self.secrets.copy()?;
        let extensions = self.extensions.copy()?;
        Ok(Pledge {
            agreement,
            debt,
            secrets,
            extensions,
            standing: self.standing,
        })
    }

    /// A copy of the pledge's record as plain fields. Fails only if memory runs out.
    pub fn parts(&self) -> Result<Parts, AllocError>
        ensures ok { IfOk result (λ parts. parts ≡ self.now) }
    {
        let agreement = self.agreement.copy()?;
        let entries = self.debt.copy_entries()?;
        let secrets = self.secrets.copy()?;
        let extensions = self.extensions.copy()?;
        Ok(Parts {
            agreement,
            entries,
            secrets,
            extensions,
            standing: self.standing,
        })
    }

    /// The pledge with this record. Returns the record as the error exactly if no pledge can have it: if commands
    /// cannot produce it, or if it breaks a limit.
    pub fn of_parts(parts: Parts) -> Result<Pledge, Parts>
        ensures ok { IfOk result (λ p. (p ≡ parts) × IsReachable parts) }
        ensures err { IfErr result (λ back. back ≡ parts) }
        ensures refused { OnErr result (IsReachable parts → ⊥) }
    {
        match validate(&parts) {
            Some(found) => Ok(Pledge::of_checked(parts, found.terms, found.ends, found.totals)),
            None => Err(parts),
        }
    }

    /// The pledge with a record that `validate` accepts.
    fn of_checked(parts: Parts, terms: Terms, ends: Day, totals: Totals) -> Pledge
        requires reachable { IsReachable parts }
        requires terms { terms ≡ parts.agreement.terms }
        requires ends { ends ≡ end_of parts }
        requires kept { IsOwed (debt_of parts) totals }
        ensures value { result ≡ parts }
    {
        let Parts {
            agreement,
            entries,
            secrets,
            extensions,
            standing,
        } = parts;
        let kind = agreement.opening.kind;
        let debt = Debt::with_totals(kind, terms, agreement.taken, ends, entries, totals);
        Pledge {
            agreement,
            debt,
            secrets,
            extensions,
            standing,
        }
    }

    /// The pledge without its lists. Fails only if memory runs out.
    pub fn brief(&self) -> Result<Brief, AllocError>
        ensures ok { IfOk result (λ b. b ≡ brief_of self.now) }
    {
        let agreement = self.agreement.copy()?;
        let fields = BriefFields {
            agreement,
            counts: Counts {
                entries: self.debt.count(),
                secrets: self.secrets.len(),
                extensions: self.extensions.len(),
            },
            standing: self.standing,
            live: self.live(),
            ends: self.debt.ends(),
            totals: self.totals(),
        };
        Ok(Brief::of_pledge(fields, self.debt.terms()))
    }
}
