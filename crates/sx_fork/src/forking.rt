//! Two calls at the same time.

ghost use Rattle.std.specs.Prelude.{◌≡◌};
ghost use Rattle.std.specs.Thread.{IsSend};

use std::thread::{Threads, join, join_mut};

/// Calls `f` in a thread of its own and, at the same time, `g`, and then waits for both. Where `apart` is true, `g` has
/// a thread of its own as well, and this thread only waits. Where it is false, this thread calls `g` itself: that is for
/// a `g` which does nothing but start more threads and wait for them.
pub fn fork<R: Threads, F: FnOnce() -> A + Send, G: FnOnce() -> B + Send, A: Send, B: Send>(
    rt: &R,
    apart: bool,
    f: F,
    g: G,
) -> (A, B)
    requires { F.pre f × G.pre g }
    ensures first { F.post f result.0 }
    ensures second { G.post g result.1 }
{
    if !apart {
        return join(rt, f, g);
    }
    let (first, (second, ())) = join(
        rt,
        f,
        move || -> (B, ())
            requires { IsSend G.row × IsSend B.row × G.pre g }
            ensures { G.post g result.0 }
        { join(rt, g, || -> () {}) },
    );
    (first, second)
}

/// As [`fork`], with the same `apart`, and with closures that are lent, so that contracts say what each call leaves in
/// what it captures.
pub fn fork_mut<R: Threads, F: FnMut() -> A + Send, G: FnMut() -> B + Send, A: Send, B: Send>(
    rt: &R,
    apart: bool,
    f: &mut F,
    g: &mut G,
) -> (A, B)
    requires { F.pre f.old × G.pre g.old }
    ensures { F.step f.old result.0 f.new × G.step g.old result.1 g.new }
{
    if !apart {
        return join_mut(rt, f, g);
    }
    let (first, (second, ())) = join_mut(
        rt,
        f,
        &mut || -> (B, ())
            requires { IsSend G.row × IsSend B.row × G.pre g.now }
            ensures { G.step g.entry.now result.0 g.exit.now }
        { join_mut(rt, g, &mut || -> () {}) },
    );
    (first, second)
}
