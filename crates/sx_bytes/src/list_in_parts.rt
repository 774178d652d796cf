//! A list whose parts stand in vectors of their own.

ghost use Rattle.std.specs.Prelude.{◌≡◌, IfOk};
ghost use Rattle.std.specs.List.{flat_map};

use crate::list_of::ListOf;
use crate::memory::NoMemory;
use std::alloc::Global;
use std::marker::Model;

/// A list in parts, each of which one thread may have read or made. Contracts see one list: the parts one after the
/// other.
#[derive(Debug, Drop)]
pub struct ListInParts<T> {
    lists: Vec<ListOf<T>>,
}

impl<T> Model for ListInParts<T> {
    ghost use Rattle.std.specs.Prelude.{List};
    ghost use Rattle.std.specs.List.{flat_map};

    ghost Value = { List T };

    ghost view = { λ whole. flat_map (λ list. list) whole.lists.items };
}

impl<T> ListInParts<T> {
    /// The list of these parts. It takes no memory.
    pub fn of(lists: Vec<ListOf<T>>) -> ListInParts<T>
        ensures { result ≡ flat_map (λ list. list) lists.items }
    {
        ListInParts { lists }
    }

    /// The parts, in their order. Some may be empty.
    pub fn parts(&self) -> &[ListOf<T>]
        ensures { flat_map (λ list. list) result.now ≡ self.now }
    {
        &self.lists
    }
}

impl<T: Copy> ListInParts<T> {
    /// One list of them all, which is a copy.
    pub fn into_list(self, alloc: Global) -> Result<ListOf<T>, NoMemory>
        ensures { IfOk result (λ list. list ≡ self) }
    {
        let mut whole = Vec::new(alloc);
        for list in self.parts() {
            whole.extend_from_slice(list.items())?;
        }
        Ok(ListOf::of(whole))
    }
}
