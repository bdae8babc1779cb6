ghost use Rattle.std.specs.Prelude.{◌≡◌, ◌↔◌, length, IsTrue};

use std::marker::Model;

/// Items in order, seen as the list of them.
///
/// Types like the steps of a schedule, or the places of a linearization, are such lists with a name. No call takes
/// memory, or more than constant time.
#[derive(Debug, Drop)]
pub struct OwnedSlice<T> {
    items: Vec<T>,
}

impl<T> Model for OwnedSlice<T> {
    ghost use Rattle.std.specs.Prelude.{List};

    ghost Value = { List T };

    ghost view = { λ a. a.items.items };
}

impl<T> OwnedSlice<T> {
    /// Makes the list of these items, in order.
    pub fn from_vec(items: Vec<T>) -> OwnedSlice<T>
        ensures { result ≡ items.items }
    {
        OwnedSlice { items }
    }

    /// Returns the items, in order.
    pub fn into_vec(self) -> Vec<T>
        ensures { result.items ≡ self }
    {
        let OwnedSlice { items } = self;
        items
    }

    /// Returns the items, in order.
    pub fn as_slice(&self) -> &[T]
        ensures { result.now ≡ self.now }
    {
        self.items.as_slice()
    }

    /// Returns the number of items.
    pub fn len(&self) -> usize
        ensures { result ≡ length self.now }
    {
        self.items.len()
    }

    /// Returns whether there is no item.
    pub fn is_empty(&self) -> bool
        ensures { IsTrue result ↔ (length self.now ≡ 0) }
    {
        self.items.is_empty()
    }
}
