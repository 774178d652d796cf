//! The answer that memory ran out.

ghost use Rattle.std.specs.Prelude.{◌≡◌, IfOk, Ok, map};

use std::alloc::{AllocError, AllocFailed, Global};
use thiserror::Error;

/// Memory ran out. A call that takes memory may answer it in place of any other answer, and no
/// other error stands for it.
#[derive(Clone, Copy, Debug, PartialEq, Eq, Error)]
#[error("out of memory")]
pub struct NoMemory;

impl From<AllocError> for NoMemory {
    fn from(_error: AllocError) -> NoMemory {
        NoMemory
    }
}

impl<T: Drop> From<AllocFailed<T>> for NoMemory {
    fn from(_error: AllocFailed<T>) -> NoMemory {
        NoMemory
    }
}

/// The values of all results, in their order, as threads answer them. `NoMemory` where one of them is that, or where
/// there is no memory for the list.
pub fn all_of<T: Drop>(alloc: Global, results: Vec<Result<T, NoMemory>>) -> Result<Vec<T>, NoMemory>
    ensures { IfOk result (λ found. results.items ≡ map Ok found.items) }
{
    let mut found = Vec::new(alloc);
    for result in results {
        found.push(result?)?;
    }
    Ok(found)
}
