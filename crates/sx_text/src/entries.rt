//! The lines of entries of one kind.

ghost use Rattle.std.specs.Prelude.{◌≡◌, ℕ, List, ◌++◌, OnOk, string_bytes};
ghost use Rattle.std.specs.List.{flat_map};

use std::alloc::Global;
use sx_bytes::NoMemory;

// How many entries tell how long the lines of all are.
const A_FEW: usize = 64;

/// How an entry of a kind is shown.
pub trait Line<T> {
    // The line of an entry.
    ghost line: { Self → T → List ℕ };

    // Appends the line of an entry.
    fn put(&self, to: &mut String, entry: &T) -> Result<(), NoMemory>
        ensures { OnOk result (string_bytes to.new ≡ string_bytes to.old ++ line self.now entry.now) };
}

/// Appends the lines of entries.
pub fn put_each<T, L: Line<T>>(shape: &L, to: &mut String, entries: &[T]) -> Result<(), NoMemory>
    ensures { OnOk result
        (string_bytes to.new ≡ string_bytes to.old ++ flat_map (L.line shape.now) entries.now) }
{
    for entry in entries {
        shape.put(to, entry)?;
    }
    Ok(())
}

/// About how many bytes the lines of entries take, by those of the last few, and an eighth more. It is a guess, for which
/// room is taken at once, so that a long text is moved to a larger place as seldom as can be.
pub fn room<T, L: Line<T>>(alloc: Global, shape: &L, entries: &[T]) -> Result<usize, NoMemory> {
    let few = A_FEW.min(entries.len());
    let (_, last) = entries.split_at(entries.len() - few);
    let mut lines = String::new(alloc);
    put_each(shape, &mut lines, last)?;
    let bytes = lines.len().saturating_mul(entries.len() / few.max(1) + 1);
    Ok(bytes.saturating_add(bytes / 8))
}
