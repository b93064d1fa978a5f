//! `Keep`, the trait of keepers: how the books of a host are read and changed.

ghost use Rattle.pawn_book.specs.BookStep.{book_head, pledge_in};
ghost use Rattle.pawn_book.specs.Bookings.{confirmed_count};
ghost use Rattle.pawn_book.specs.Changes.{CanSave};
ghost use Rattle.pawn_book.specs.HostStep.{rows};
ghost use Rattle.pawn_book.specs.Items.{rows_of_pledges};
ghost use Rattle.pawn_book.specs.Keeping.{Errs, HasTermsOf, IsNextBook, Keeping, OfHost, Reads, Saves, WholeIsSound};
ghost use Rattle.pawn_book.specs.Keeping.{entries_of, extensions_of, number_of, pledges_of, terms_of};
ghost use Rattle.pawn_book.specs.Rows.{terms_at};
ghost use Rattle.pawn_book.specs.Sheet.{day_sheet};
ghost use Rattle.pawn_book.specs.Sound.{HasUnsoundBook, IsSound, IsUnsoundAt};
ghost use Rattle.pawn_book.specs.Visits.{IsShare, Visits, call_end};
ghost use Rattle.pawn_pledge.specs.Brief.{brief_of};
ghost use Rattle.pawn_pledge.specs.Replayable.{IsReachable};
ghost use Rattle.std.specs.FinMap.{get};
ghost use Rattle.std.specs.Prelude.{◌≡◌, IfOk, IfSome, option_map, unwrap_or};

use crate::change::{BookHead, Change};
use crate::fault::{KeepError, SaveError};
use crate::items::RowItem;
use crate::sheet::SheetItem;
use crate::visit::Visitor;
use pawn_pledge::{Brief, Day, Entry, Extension, Number, Pledge, Reference, Terms};

/// A keeper: a value that keeps a host, in a list or in tables. Only `save` changes the host.
pub trait Keep {
    /// The predicates by which contracts describe a keeper, in the order of the fields of `Keeping`: the hosts that it
    /// stands for (represents); whether its store is honest, usable and steady; the hosts that a crash now may
    /// leave; and whether the keeper is whole.
    ghost keeping: { Keeping Self };

    /// The head of a book, if there is such a book.
    fn book_head(&mut self, book: Number) -> Result<Option<BookHead>, KeepError>
        ensures reads { Reads keeping self.old self.new (λ h. IfOk result (λ head. head ≡ option_map book_head (get h.books book))) }
        ensures errs { Errs keeping self.old self.new (IsUnsoundAt book) result };

    /// The terms that a book has under a version, if it has any.
    fn terms(&mut self, book: Number, version: u64) -> Result<Option<Terms>, KeepError>
        ensures reads { Reads keeping self.old self.new (λ h. IfOk result (λ terms. terms ≡ terms_at (terms_of (get h.books book)) version)) }
        ensures errs { Errs keeping self.old self.new (IsUnsoundAt book) result };

    /// The pledge with this number in a book, if there is one. Commands can produce each pledge that is returned, also
    /// of a book that is not sound.
    fn pledge(&mut self, book: Number, number: Number) -> Result<Option<Pledge>, KeepError>
        ensures reads { Reads keeping self.old self.new (λ h. IfOk result (λ pledge. pledge ≡ pledge_in (get h.books book) number)) }
        ensures reachable { IfOk result (λ pledge. IfSome pledge IsReachable) }
        ensures errs { Errs keeping self.old self.new (IsUnsoundAt book) result };

    /// The number of the pledge with this reference in a book, if there is one.
    fn find_ref(&mut self, book: Number, reference: &Reference) -> Result<Option<Number>, KeepError>
        ensures reads { Reads keeping self.old self.new (λ h. IfOk result (λ number. number ≡ number_of (get h.books book) reference.now)) }
        ensures errs { Errs keeping self.old self.new (IsUnsoundAt book) result };

    /// How many pledges of a book have a confirmed booking for a day and a window.
    fn confirmed_count(&mut self, book: Number, day: Day, window: u64) -> Result<u64, KeepError>
        ensures reads { Reads keeping self.old self.new (λ h. IfOk result (λ count. count ≡ confirmed_count (pledges_of (get h.books book)) day window)) }
        ensures errs { Errs keeping self.old self.new (IsUnsoundAt book) result };

    /// Passes the pledges of a book in order of their numbers to the visitor, until it returns `Stop`. If the call
    /// fails, the visitor may have got only a prefix of them.
    fn walk<V: Visitor<Pledge>>(&mut self, book: Number, visitor: &mut V) -> Result<(), KeepError>
        ensures reads { Visits V.step visitor.old visitor.new (λ given flow. Reads keeping self.old self.new
            (λ h. IsShare given flow (call_end result) (pledges_of (get h.books book)))) }
        ensures errs { Errs keeping self.old self.new (IsUnsoundAt book) result };

    /// The lowest number of a book above `after`, or of any book if `after` is `None`. Returns `None` if there is no
    /// such book.
    fn next_book(&mut self, after: Option<Number>) -> Result<Option<Number>, KeepError>
        ensures reads { Reads keeping self.old self.new (λ h. IfOk result (λ next. IsNextBook h (unwrap_or after 0) next)) }
        ensures errs { Errs keeping self.old self.new HasUnsoundBook result };

    /// The pledge with this number in a book, without its lists, if there is one. Nothing is promised for a host that is
    /// not sound: a keeper may take the number of the last entry for how many entries there are.
    fn brief(&mut self, book: Number, number: Number) -> Result<Option<Brief>, KeepError>
        ensures reads { Reads keeping self.old self.new
            (λ h. IsSound h → IfOk result (λ brief. brief ≡ option_map brief_of (pledge_in (get h.books book) number))) }
        ensures errs { Errs keeping self.old self.new (IsUnsoundAt book) result };

    /// The same as `brief`, for a caller that has the brief of another pledge of this book, `known`. A keeper need not
    /// read the terms again if both pledges are under the same version. Nothing is promised for a host that is not
    /// sound, or whose book has other terms than `known` under that version.
    fn further_brief(
        &mut self,
        book: Number,
        number: Number,
        known: &Brief,
    ) -> Result<Option<Brief>, KeepError>
        ensures reads { Reads keeping self.old self.new (λ h. IsSound h → HasTermsOf (get h.books book) known.now
            → IfOk result (λ brief. brief ≡ option_map brief_of (pledge_in (get h.books book) number))) }
        ensures errs { Errs keeping self.old self.new (λ h. HasTermsOf (get h.books book) known.now → IsUnsoundAt book h) result };

    /// Passes the entries of a pledge in order to the visitor, until it returns `Stop`. If the call fails, the visitor
    /// may have got only a prefix of them.
    fn entries<V: Visitor<Entry>>(
        &mut self,
        book: Number,
        number: Number,
        visitor: &mut V,
    ) -> Result<(), KeepError>
        ensures reads { Visits V.step visitor.old visitor.new (λ given flow. Reads keeping self.old self.new
            (λ h. IsShare given flow (call_end result) (entries_of (pledge_in (get h.books book) number)))) }
        ensures errs { Errs keeping self.old self.new (IsUnsoundAt book) result };

    /// Passes the extensions of a pledge in order to the visitor, until it returns `Stop`. If the call fails, the
    /// visitor may have got only a prefix of them.
    fn extensions<V: Visitor<Extension>>(
        &mut self,
        book: Number,
        number: Number,
        visitor: &mut V,
    ) -> Result<(), KeepError>
        ensures reads { Visits V.step visitor.old visitor.new (λ given flow. Reads keeping self.old self.new
            (λ h. IsShare given flow (call_end result) (extensions_of (pledge_in (get h.books book) number)))) }
        ensures errs { Errs keeping self.old self.new (IsUnsoundAt book) result };

    /// Passes the items of a day's sheet in order to the visitor, until it returns `Stop`. If the call fails, the
    /// visitor may have got only a prefix of them.
    fn sheet_each<V: Visitor<SheetItem>>(
        &mut self,
        book: Number,
        day: Day,
        visitor: &mut V,
    ) -> Result<(), KeepError>
        ensures reads { Visits V.step visitor.old visitor.new (λ given flow. Reads keeping self.old self.new
            (λ h. IsShare given flow (call_end result) (day_sheet (pledges_of (get h.books book)) day))) }
        ensures errs { Errs keeping self.old self.new (IsUnsoundAt book) result };

    /// Passes the rows of a book's pledges to the visitor, pledge by pledge in the order of an export, until it returns
    /// `Stop`. If the call fails, the visitor may have got only a prefix of them.
    fn rows_each<V: Visitor<RowItem>>(
        &mut self,
        book: Number,
        visitor: &mut V,
    ) -> Result<(), KeepError>
        ensures reads { Visits V.step visitor.old visitor.new (λ given flow. Reads keeping self.old self.new
            (λ h. IsShare given flow (call_end result) (rows_of_pledges (pledges_of (get h.books book))))) }
        ensures errs { Errs keeping self.old self.new (IsUnsoundAt book) result };

    /// How many rows all books have together.
    fn rows(&mut self) -> Result<u64, KeepError>
        ensures reads { Reads keeping self.old self.new (λ h. IfOk result (λ count. count ≡ rows h)) }
        ensures errs { Errs keeping self.old self.new HasUnsoundBook result };

    /// Saves a change, or returns `Full` if the rows would be above the limit of the host. After an error the books are
    /// as before. If the error is not `Full`, a crash after it may still leave the changed book.
    fn save(&mut self, change: &Change) -> Result<(), SaveError>
        requires can_save { keeping.usable self.old → OfHost keeping self.old self.old (λ h. CanSave h change.now) }
        ensures saves { Saves keeping self.old self.new change.now result };

    // A whole keeper stands for a sound host, and a crash may leave only sound ones.
    ghost whole_is_sound: { WholeIsSound keeping };
}
