//! A list of values.
ghost use Rattle.std.specs.Prelude.{◌≡◌, ◌<◌, ◌∷◌, ◌++◌, [], length, remove, slice_get, Some, OnOk, OnErr};

use std::alloc::{AllocError, Global};
use std::marker::Model;

/// Values in order, which contracts see as a list.
#[derive(Debug, Drop)]
pub struct Sequence<T> {
    items: Vec<T>,
}

impl<T> Model for Sequence<T> {
    ghost use Rattle.std.specs.Prelude.{List};

    ghost Value = { List T };

    ghost view = { λ s. s.items.items };
}

impl<T> Sequence<T> {
    /// A list without values, which takes no memory yet.
    pub fn new(alloc: Global) -> Sequence<T>
        ensures { result ≡ [] }
    {
        Sequence {
            items: Vec::new(alloc),
        }
    }

    /// The list of these values. It takes no memory.
    pub fn from_vec(items: Vec<T>) -> Sequence<T>
        ensures { result ≡ items.items }
    {
        Sequence { items }
    }

    /// Its values. It takes no memory.
    pub fn into_vec(self) -> Vec<T>
        ensures { result.items ≡ self }
    {
        let Sequence { items } = self;
        items
    }

    /// Its values, lent.
    pub fn as_slice(&self) -> &[T]
        ensures { result.now ≡ self.now }
    {
        self.items.as_slice()
    }

    /// Where its memory comes from.
    pub fn allocator(&self) -> Global {
        *self.items.allocator()
    }

    /// How many values there are.
    pub fn len(&self) -> usize
        ensures { result ≡ length self.now }
    {
        self.items.len()
    }
}

impl<T: Drop> Sequence<T> {
    /// Adds a value at the end.
    pub fn push(&mut self, item: T) -> Result<(), AllocError>
        ensures ok { OnOk result (self.new ≡ self.old ++ item ∷ []) }
        ensures err { OnErr result (self.new ≡ self.old) }
    {
        self.items.push(item)?;
        Ok(())
    }

    /// Takes a value out. Those behind it come nearer.
    pub fn remove(&mut self, index: usize) -> T
        requires { index < length self.old }
        ensures value { slice_get self.old index ≡ Some result }
        ensures rest { self.new ≡ remove self.old index }
    {
        self.items.remove(index)
    }
}

impl<T: Clone + Drop> Clone for Sequence<T> {
    // equal to its source where the clones of its values are
    ghost is_clone = { λ s copy. ((x y : T) → T.is_clone x y → y ≡ x) → copy ≡ s };

    fn clone(&self) -> Result<Sequence<T>, AllocError> {
        let alloc = self.items.allocator();
        Ok(Sequence {
            items: Vec::from_clones(*alloc, self.items.as_slice())?,
        })
    }
}
