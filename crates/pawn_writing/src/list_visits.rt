//! Visits the lists of a pledge. The keeper is asked for a list only if the pledge's brief says that it is not empty.
ghost use Rattle.pawn_book.specs.BookStep.{pledge_in};
ghost use Rattle.pawn_book.specs.Keeping.{IsSteady, Reads, entries_of, extensions_of};
ghost use Rattle.pawn_book.specs.Visits.{IsShare, Visits, call_end};
ghost use Rattle.pawn_pledge.specs.Brief.{brief_of};
ghost use Rattle.pawn_pledge.specs.Pledge.{PledgeValue};
ghost use Rattle.std.specs.FinMap.{get};
ghost use Rattle.std.specs.Prelude.{◌≡◌, Some};

use pawn_book::{Brief, Entry, Extension, Keep, KeepError, Number, Visitor};

/// Passes the extensions of the pledge to which this brief belongs to the visitor, in order, until the visitor stops.
/// The keeper is not asked if the brief says that there are none. Errors: `Memory` and `Store` if the keeper does not
/// answer.
pub fn visit_extensions<K: Keep, V: Visitor<Extension>>(
    keep: &mut K,
    book: Number,
    number: Number,
    brief: &Brief,
    visitor: &mut V,
) -> Result<(), KeepError>
    ensures reads { Visits V.step visitor.old visitor.new (λ given flow. Reads K.keeping keep.old keep.new (λ h. (p : PledgeValue) → pledge_in (get h.books
        book) number ≡ Some p → brief.now ≡ brief_of p → IsShare given flow (call_end result) (extensions_of (pledge_in (get h.books book) number)))) }
    ensures unasked { brief.now.counts.extensions ≡ 0 → keep.new ≡ keep.old }
    ensures steady { IsSteady K.keeping keep.old result }
{
    if brief.fields().counts.extensions == 0 {
        return Ok(());
    }
    keep.extensions(book, number, visitor)
}

/// Passes the entries of the pledge to which this brief belongs to the visitor, in order, until the visitor stops. The
/// keeper is not asked if the brief says that there are none. Errors: `Memory` and `Store` if the keeper does not
/// answer.
pub fn visit_entries<K: Keep, V: Visitor<Entry>>(
    keep: &mut K,
    book: Number,
    number: Number,
    brief: &Brief,
    visitor: &mut V,
) -> Result<(), KeepError>
    ensures reads { Visits V.step visitor.old visitor.new (λ given flow. Reads K.keeping keep.old keep.new (λ h. (p : PledgeValue) → pledge_in (get h.books
        book) number ≡ Some p → brief.now ≡ brief_of p → IsShare given flow (call_end result) (entries_of (pledge_in (get h.books book) number)))) }
    ensures unasked { brief.now.counts.entries ≡ 0 → keep.new ≡ keep.old }
    ensures steady { IsSteady K.keeping keep.old result }
{
    if brief.fields().counts.entries == 0 {
        return Ok(());
    }
    keep.entries(book, number, visitor)
}
