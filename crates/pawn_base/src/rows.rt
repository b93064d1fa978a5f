//! `Rows`, an ordered list of records such as the entries of a debt.

ghost use Rattle.std.specs.Prelude.{◌≡◌, ◌↔◌, [], ◌∷◌, ◌++◌, length, OnOk, OnErr, IfOk, IsTrue};

use std::alloc::{AllocError, Global};
use std::marker::Model;

/// The rows of a record, in order: its entries, secrets or extensions. In contracts the value is the list of the rows.
#[derive(Drop)]
pub struct Rows<T> {
    items: Vec<T>,
}

impl<T> Model for Rows<T> {
    ghost use Rattle.std.specs.Prelude.{List};

    ghost Value = { List T };

    ghost view = { λ rows. rows.items.items };
}

impl<T: Copy> Rows<T> {
    /// An empty list of rows.
    pub fn new(alloc: Global) -> Rows<T>
        ensures value { result ≡ [] }
    {
        Rows {
            items: Vec::new(alloc),
        }
    }

    /// The rows of a vector, in its order.
    pub fn from_vec(items: Vec<T>) -> Rows<T>
        ensures value { result ≡ items.items }
    {
        Rows { items }
    }

    /// The rows as a slice.
    pub fn as_slice(&self) -> &[T]
        ensures value { result.now ≡ self.now }
    {
        self.items.as_slice()
    }

    /// How many rows there are.
    pub fn len(&self) -> usize
        ensures value { result ≡ length self.now }
    {
        self.items.len()
    }

    /// Whether there is no row.
    pub fn is_empty(&self) -> bool
        ensures answer { IsTrue result ↔ (self.now ≡ []) }
    {
        self.items.is_empty()
    }

    /// Adds a row at the end. If memory runs out, it returns `AllocError` and the rows are unchanged.
    pub fn push(&mut self, row: T) -> Result<(), AllocError>
        ensures ok { OnOk result (self.new ≡ self.old ++ row ∷ []) }
        ensures err { OnErr result (self.new ≡ self.old) }
    {
        self.items.push(row)?;
        Ok(())
    }

    /// A copy of the rows. Fails only if memory runs out.
    pub fn copy(&self) -> Result<Rows<T>, AllocError>
        ensures ok { IfOk result (λ rows. rows ≡ self.now) }
    {
        let items = Vec::from_slice(*self.items.allocator(), &self.items)?;
        Ok(Rows { items })
    }
}
