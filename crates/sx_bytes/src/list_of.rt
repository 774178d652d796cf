//! The type of every field that is a list.

ghost use Rattle.std.specs.Prelude.{◌≡◌};
ghost use Rattle.std.specs.Cmp.Lexicographic.{pointwise, lists_per, lists_equiv};

use std::alloc::Global;
use std::marker::Model;

/// A list of values, over the vector that holds them. Contracts see the list, and two lists are
/// equal where their values are, one by one.
///
/// Each field that is a list has a name of its own for this type, as [`Bytes`].
#[derive(Debug, Drop)]
pub struct ListOf<T> {
    entries: Vec<T>,
}

/// A list of bytes.
pub type Bytes = ListOf<u8>;

impl<T> Model for ListOf<T> {
    ghost use Rattle.std.specs.Prelude.{List};

    ghost Value = { List T };

    ghost view = { λ list. list.entries.items };
}

impl<T> ListOf<T> {
    /// The list of the values of a vector, which is taken as it is. It takes no memory.
    pub fn of(items: Vec<T>) -> ListOf<T>
        ensures { result ≡ items.items }
    {
        ListOf { entries: items }
    }

    /// The values.
    pub fn items(&self) -> &[T]
        ensures { result.now ≡ self.now }
    {
        &self.entries
    }

    /// The allocator of the vector, with which a copy of the list is made.
    pub fn allocator(&self) -> Global {
        *self.entries.allocator()
    }

    /// Gives the vector back. It takes no memory.
    pub fn into_items(self) -> Vec<T>
        ensures { result.items ≡ self }
    {
        self.entries
    }
}

impl<T: PartialEq> PartialEq for ListOf<T> {
    ghost eq = { pointwise T.eq };

    ghost laws = { lists_per T.laws };

    fn eq(&self, other: &Self) -> bool {
        self.items() == other.items()
    }
}

impl<T: Eq> Eq for ListOf<T> {
    ghost laws = { lists_equiv T.Eq.laws };
}
