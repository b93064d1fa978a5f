//! `Visitor`, to which a keeper passes the items of a list.

/// Whether a visitor wants further items.
#[derive(Clone, Copy)]
pub enum Flow {
    Go,
    Stop,
}

/// A value to which a keeper passes the items of a list one by one, until it returns `Stop`. The list may be the
/// pledges of a book, a list of a pledge, or a day's sheet.
pub trait Visitor<T> {
    ghost use Rattle.pawn_book.specs.declared.visit.Flow.{Flow};

    /// The relation of one call: the visitor before it, the item, the result, and the visitor after it.
    ghost step: { Self → T → Flow → Self → Type 0 };

    /// Takes one item, and returns whether the visitor wants further ones.
    fn visit(&mut self, item: &T) -> Flow
        ensures steps { step self.old item.now result self.new };
}
