//! The root of a ledger, as another implementation makes it. Stored cases have the proofs of its accounts.

ghost use Rattle.std.specs.Prelude.{◌≤◌};

use crate::markets::two_accounts;
use std::alloc::Global;
use std::thread::Threads;
use sx_block::Digest;
use sx_commit::{clash, commit, prove};
use sx_ledger::Ledger;
use sx_state::read_state;

#[rattlefmt::skip]
fn root() -> [u8; 32] {
    [
        102, 77, 65, 159, 70, 147, 206, 152, 181, 16, 28, 170, 13, 10, 235, 247,
        13, 24, 29, 73, 56, 224, 188, 237, 231, 237, 134, 1, 255, 18, 169, 203,
    ]
}

// Whether this is the root. The ledger has to say what its proof of the first account says.
fn has_root<R: Threads + Sync>(rt: &R, alloc: Global, ledger: &Ledger, workers: u32) -> Option<bool>
    requires some_worker { 1 ≤ workers }
    requires few_workers { workers ≤ 64 }
{
    if ledger.accounts() == 0 {
        return None;
    }
    let found = commit(rt, alloc, ledger, workers).ok()?;
    let proof = prove(rt, alloc, ledger, 0, workers).ok()?;
    let clashes = clash(rt, alloc, ledger, &proof, workers).ok()?.is_some();
    Some(found == Digest::of(root()) && !clashes)
}

#[test]
fn a_ledger_has_one_root(rt: HostRuntime) {
    match read_state(rt.alloc(), two_accounts().as_slice()) {
        Ok(ledger) => {
            assert!(rt; has_root(&rt, rt.alloc(), &ledger, 1) == Some(true));
            assert!(rt; has_root(&rt, rt.alloc(), &ledger, 4) == Some(true));
        }
        Err(_) => assert!(rt; false),
    }
}
