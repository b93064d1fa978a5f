//! `Debt`: a credit with its entries, and the sum owed on it.

ghost use Rattle.pawn_debt.specs.Answers.{start_answer, draw_answer, repay_answer, with_entry, IsAnswer};
ghost use Rattle.pawn_debt.specs.Due.{due, last_of, credit_of, after_sort};
ghost use Rattle.pawn_debt.specs.Kept.{IsDebtKept, sums_of, totals_of};
ghost use Rattle.pawn_debt.specs.Limits.{most_pence, most_entries, most_a_day, most_millionths};
ghost use Rattle.pawn_debt.specs.Owing.{owing_of};
ghost use Rattle.pawn_debt.specs.Replay.{IsReachableDebt};
ghost use Rattle.pawn_terms.specs.Calendar.{IsDayNumber};
ghost use Rattle.std.specs.Prelude.{find, ◌==◌, ◌≡◌, ◌-◌, ◌*◌, ◌≤◌, ◌<◌, length, OnOk, OnErr, IfOk, IfErr};

use crate::entry::{Entries, Entry, Kind, Sort, find_entry};
use crate::fault::DebtFault;
use crate::limits::{MOST_ENTRIES, MOST_PENCE};
use crate::owing::{Owing, Totals, after_days, after_draw, after_repay, owing_after};
use crate::replay::{first_totals, replay_entries};
use pawn_terms::{Day, Terms};
use std::alloc::{AllocError, Global};
use std::marker::Model;

/// The debt on a pledge: its credit, terms, period and entries, and the totals after the last entry.
#[derive(Drop)]
pub struct Debt {
    kind: Kind,
    terms: Terms,
    taken: Day,
    ends: Day,
    entries: Entries,
    totals: Totals,
}

impl Model for Debt {
    ghost use Rattle.pawn_debt.specs.Due.{DebtValue};
    ghost use Rattle.pawn_debt.specs.Kept.{IsDebtKept};

    ghost Value = { DebtValue };

    ghost view = { λ a. record {
      kind = a.kind;
      terms = a.terms;
      taken = a.taken;
      ends = a.ends;
      entries = a.entries;
    } };

    ghost invariant = { λ a. IsDebtKept (record
        { kind = a.kind; terms = a.terms; taken = a.taken; ends = a.ends; entries = a.entries })
        a.totals };
}

impl Debt {
    /// A new debt with no entries. `BadAmount` if its sum or limit is 0, or above `MOST_PENCE`.
    pub fn start(
        alloc: Global,
        kind: Kind,
        terms: Terms,
        taken: Day,
        ends: Day,
    ) -> Result<Debt, DebtFault>
        ensures value { result ≡ start_answer kind terms taken ends }
    {
        if kind.credit() == 0 || kind.credit() > MOST_PENCE {
            return Err(DebtFault::BadAmount);
        }
        Ok(Debt {
            kind,
            terms,
            taken,
            ends,
            entries: Entries::new(alloc),
            totals: first_totals(kind, terms, taken, ends),
        })
    }

    /// The debt with these entries and with the totals after the last of them. The contract requires that the totals
    /// follow from the entries, and that all are within their limits.
    pub fn with_totals(
        kind: Kind,
        terms: Terms,
        taken: Day,
        ends: Day,
        entries: Entries,
        totals: Totals,
    ) -> Debt
        requires kept { IsDebtKept (record { kind = kind; terms = terms; taken = taken; ends = ends; entries = entries }) totals }
        ensures value { result ≡ record { kind = kind; terms = terms; taken = taken; ends = ends; entries = entries } }
    {
        Debt {
            kind,
            terms,
            taken,
            ends,
            entries,
            totals,
        }
    }

    /// The debt with these entries. Returns the entries as the error if the rules do not accept each of them in turn,
    /// or if the sum or limit is 0 or above `MOST_PENCE`.
    pub fn of_entries(
        kind: Kind,
        terms: Terms,
        taken: Day,
        ends: Day,
        entries: Entries,
    ) -> Result<Debt, Entries>
        ensures ok { IfOk result (λ d. (d ≡ record { kind = kind; terms = terms; taken = taken; ends = ends; entries = entries }) × IsReachableDebt d) }
        ensures err { IfErr result (λ e. e ≡ entries) }
        ensures refused { OnErr result (IsReachableDebt (record { kind = kind; terms = terms; taken = taken; ends = ends; entries = entries }) → ⊥) }
    {
        if kind.credit() == 0 || kind.credit() > MOST_PENCE {
            return Err(entries);
        }
        match replay_entries(kind, terms, taken, ends, entries.as_slice()) {
            Some(totals) => Ok(Debt {
                kind,
                terms,
                taken,
                ends,
                entries,
                totals,
            }),
            None => Err(entries),
        }
    }

    /// The totals on a day that is not before the last entry, nor before the day taken.
    fn owed_on(&self, day: Day) -> Totals
        requires later { last_of self.now.taken self.now.entries ≤ day }
        ensures day { result.day ≡ day }
        ensures owed { sums_of result ≡ due self.now day }
        ensures principal_in { result.principal ≤ most_pence }
        ensures millionths_in { result.millionths ≤ (day - self.now.taken) * most_a_day }
        ensures in_range { IsDayNumber day }
    {
        after_days(&self.totals, self.terms, self.ends, day)
    }

    /// The sum owed in whole pence on a day that is not before the last entry, nor before the day taken.
    pub fn owing(&self, day: Day) -> Owing
        requires later { last_of self.now.taken self.now.entries ≤ day }
        ensures value { result ≡ owing_of (due self.now day) }
    {
        owing_after(&self.owed_on(day))
    }

    /// The totals on the day of the last entry, or on the day taken if there is no entry: principal in pence, charges
    /// in millionths of a penny.
    pub fn totals(&self) -> Totals
        ensures value { result ≡ totals_of self.now }
        ensures principal_in { result.principal ≤ most_pence }
        ensures millionths_in { result.millionths ≤ most_millionths }
    {
        self.totals
    }

    /// Enters a drawing on a running account, or refuses it and leaves the debt unchanged. The refusals are checked in
    /// this order: `EarlierDay`, `FixedSum`, `BadAmount`, `EntriesFull`, `OverLimit`, and `Memory` last.
    pub fn draw(&mut self, day: Day, pence: u64) -> Result<(), DebtFault>
        ensures answer { IsAnswer DebtFault.Memory (draw_answer self.old day pence) self.old result self.new }
        ensures entered { OnOk result (self.new ≡ with_entry self.old day Sort.Draw pence) }
        ensures last { OnOk result (last_of self.new.taken self.new.entries ≡ day) }
    {
        if day < self.last() {
            return Err(DebtFault::EarlierDay);
        }
        let Kind::Running(limit) = self.kind() else {
            return Err(DebtFault::FixedSum);
        };
        if pence == 0 || pence > MOST_PENCE {
            return Err(DebtFault::BadAmount);
        }
        if self.count() >= MOST_ENTRIES {
            return Err(DebtFault::EntriesFull);
        }
        let owed = self.owed_on(day);
        if owed.principal + pence > limit {
            return Err(DebtFault::OverLimit);
        }
        let after = after_draw(owed, pence);
        self.enter(Sort::Draw, pence, after)
    }

    /// Enters a repayment, which pays whole pence of charges first and then principal, or refuses it and leaves the
    /// debt unchanged. The refusals are checked in this order: `EarlierDay`, `BadAmount`, `EntriesFull`, `OverOwing`,
    /// and `Memory` last.
    pub fn repay(&mut self, day: Day, pence: u64) -> Result<(), DebtFault>
        ensures answer { IsAnswer DebtFault.Memory (repay_answer self.old day pence) self.old result self.new }
        ensures entered { OnOk result (self.new ≡ with_entry self.old day Sort.Repay pence) }
        ensures last { OnOk result (last_of self.new.taken self.new.entries ≡ day) }
    {
        if day < self.last() {
            return Err(DebtFault::EarlierDay);
        }
        if pence == 0 || pence > MOST_PENCE {
            return Err(DebtFault::BadAmount);
        }
        if self.count() >= MOST_ENTRIES {
            return Err(DebtFault::EntriesFull);
        }
        let owed = self.owed_on(day);
        let total = owing_after(&owed).total;
        if pence > total {
            return Err(DebtFault::OverOwing { total });
        }
        let after = after_repay(owed, pence);
        self.enter(Sort::Repay, pence, after)
    }

    /// A copy of the debt. Fails only if memory runs out.
    pub fn copy(&self) -> Result<Debt, AllocError>
        ensures ok { IfOk result (λ d. d ≡ self.now) }
    {
        let entries = self.entries.copy()?;
        Ok(Debt {
            kind: self.kind,
            terms: self.terms,
            taken: self.taken,
            ends: self.ends,
            entries,
            totals: self.totals,
        })
    }

    /// Sets the end of the period to a day that is not before the present end. No entry may be after the present end.
    pub fn extend(&mut self, ends: Day)
        requires later { self.old.ends ≤ ends }
        requires inside { last_of self.old.taken self.old.entries ≤ self.old.ends }
        ensures state { self.new ≡ record self.old { ends = ends } }
    {
        self.ends = ends;
    }

    /// The day of the last entry, or the day taken if there is no entry.
    pub fn last(&self) -> Day
        ensures value { result ≡ last_of self.now.taken self.now.entries }
    {
        self.totals.day
    }

    /// The kind of the credit, with its sum or limit in pence.
    pub fn kind(&self) -> Kind
        ensures value { result ≡ self.now.kind }
        ensures small { credit_of result ≤ most_pence }
    {
        self.kind
    }

    /// The terms of the agreement.
    pub fn terms(&self) -> Terms
        ensures value { result ≡ self.now.terms }
    {
        self.terms
    }

    /// The entries, in order.
    pub fn entries(&self) -> &[Entry]
        ensures value { result.now ≡ self.now.entries }
    {
        self.entries.as_slice()
    }

    /// A copy of the entries, in order. Fails only if memory runs out.
    pub fn copy_entries(&self) -> Result<Entries, AllocError>
        ensures ok { IfOk result (λ e. e ≡ self.now.entries) }
    {
        self.entries.copy()
    }

    /// The first entry with this number, if there is one.
    pub fn entry(&self, seq: u64) -> Option<Entry>
        ensures value { result ≡ find (λ e. e.seq == seq) self.now.entries }
    {
        find_entry(self.entries.as_slice(), seq)
    }

    /// The end of the period.
    pub fn ends(&self) -> Day
        ensures value { result ≡ self.now.ends }
    {
        self.ends
    }

    /// How many entries there are.
    pub fn count(&self) -> usize
        ensures value { result ≡ length self.now.entries }
        ensures few { result ≤ most_entries }
    {
        self.entries.len()
    }

    /// Adds an entry at the end, and stores `after` as the totals after it.
    fn enter(&mut self, sort: Sort, pence: u64, after: Totals) -> Result<(), DebtFault>
        requires later { last_of self.old.taken self.old.entries ≤ after.day }
        requires few { length self.old.entries < most_entries }
        requires owed { sums_of after ≡ after_sort sort pence (due self.old after.day) }
        requires principal_in { after.principal ≤ most_pence }
        requires millionths_in { after.millionths ≤ (after.day - self.old.taken) * most_a_day }
        requires in_range { IsDayNumber after.day }
        ensures ok { OnOk result (self.new ≡ with_entry self.old after.day sort pence) }
        ensures last { OnOk result (last_of self.new.taken self.new.entries ≡ after.day) }
        ensures err { IfErr result (λ e. e ≡ DebtFault.Memory) }
        ensures unchanged { OnErr result (self.new ≡ self.old) }
    {
        let entry = Entry {
            seq: self.entries.len() as u64 + 1,
            day: after.day,
            sort,
            pence,
        };
        match self.entries.push(entry) {
            Ok(()) => {
                self.totals = after;
                Ok(())
            }
            Err(_) => Err(DebtFault::Memory),
        }
    }
}
