//! A call for each number below one.

ghost use Rattle.std.specs.Prelude.{◌≡◌, ℕ, ◌+◌, ◌^◌, ◌<◌, ◌≤◌, IfOk, vec_len};
ghost use Rattle.std.specs.Thread.{IsSync};
ghost use Rattle.std.specs.Fork.{GivesEach};
ghost use Rattle.sx_fork.specs.Indices.{GivesFrom};

use crate::forking::fork;
use std::alloc::{AllocError, Global};
use std::marker::{Send, Sync};
use std::thread::Threads;

// What a call at one number gives.
fn one_call<X: Drop, F: Fn(usize) -> X>(
    alloc: Global,
    from: usize,
    f: &F,
) -> Result<Vec<X>, AllocError>
    requires { F.pre f.now from }
    ensures { IfOk result (λ given. GivesFrom F.Fn f.now from 1 given.items) }
{
    let mut given = Vec::with_capacity(alloc, 1)?;
    given.push(f(from))?;
    Ok(given)
}

// What the calls at so many numbers give, from the number `from` on. A thread makes each call.
fn calls_from<R: Threads + Sync, X: Send + Drop, F: Fn(usize) -> X + Sync>(
    rt: &R,
    alloc: Global,
    from: usize,
    count: usize,
    f: &F,
) -> Result<Vec<X>, AllocError>
    requires some { 1 ≤ count }
    requires room { from + count < 2 ^ 64 }
    requires accepts { (k : ℕ) → from ≤ k → k < from + count → F.pre f.now k }
    ensures { IfOk result (λ given. GivesFrom F.Fn f.now from count given.items) }
{
    if count < 2 {
        return one_call(alloc, from, f);
    }
    let others = count - 1;
    let (one, more) = fork(
        rt,
        others < 2,
        move || -> Result<Vec<X>, AllocError>
            requires { IsSync F.row × F.pre f.now from }
            ensures { IfOk result (λ given. GivesFrom F.Fn f.entry.now from 1 given.items) }
        { one_call(alloc, from, f) },
        move || -> Result<Vec<X>, AllocError>
            requires { IsSync R.row × IsSync F.row × (1 ≤ others) × (from + 1 + others < 2 ^ 64) × ((k : ℕ) → from + 1 ≤ k → k < from + 1 + others → F.pre f.now k) }
            ensures { IfOk result (λ given. GivesFrom F.Fn f.entry.now (from + 1) others given.items) }
        { calls_from(rt, alloc, from + 1, others, f) },
    );
    let mut given = one?;
    let mut rest = more?;
    given.append(&mut rest)?;
    Ok(given)
}

/// What `f(0)` to `f(count - 1)` give, in that order, each call in a thread of its own. Of one call this thread makes it.
/// The error says that memory ran out; then the results are dropped.
pub fn map_indices<R: Threads + Sync, X: Send + Drop, F: Fn(usize) -> X + Sync>(
    rt: &R,
    alloc: Global,
    count: usize,
    f: &F,
) -> Result<Vec<X>, AllocError>
    requires { (k : ℕ) → k < count → F.pre f.now k }
    ensures len { IfOk result (λ given. vec_len given ≡ count) }
    ensures each { IfOk result (λ given. GivesEach F.Fn f.now count given.items) }
{
    if count == 0 {
        return Ok(Vec::new(alloc));
    }
    calls_from(rt, alloc, 0, count, f)
}
