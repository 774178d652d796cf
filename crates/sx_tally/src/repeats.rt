//! The first index at which something is done again.

ghost use Rattle.std.specs.Prelude.{◌≡◌, Some, is_some, if◌then◌else◌};

// The first index at which something is done again: the one that is known by now; else this one, where
// it is done again here.
pub fn first_again(known: Option<usize>, is_again: bool, index: usize) -> Option<usize>
    ensures { result ≡ (if is_again then (if is_some known then known else Some index) else known) }
{
    match known {
        None if is_again => Some(index),
        _ => known,
    }
}
