//! Sellers who are credited part by part.

ghost use Rattle.std.specs.Prelude.{◌≡◌, ◌*◌, ◌≤◌, map, OnOk};
ghost use Rattle.std.specs.Thread.{IsSync};
ghost use Rattle.sx_apply.specs.FillSums.{paid_by};
ghost use Rattle.sx_apply.specs.Paying.{CanPay};

use std::alloc::Global;
use std::thread::Threads;
use sx_apply::pay_sellers;
use sx_bytes::NoMemory;
use sx_fork::fork_mut;
use sx_ledger::{Account, Fill, Offer};

// Credits the sellers among the accounts with what the fills of their offers get. So many threads credit each a part of
// the accounts.
pub fn pay_parts<R: Threads + Sync>(
    rt: &R,
    alloc: Global,
    offers: &[Offer],
    fills: &[Fill],
    threads: usize,
    accounts: &mut [Account],
) -> Result<(), NoMemory>
    requires some { 1 ≤ threads }
    requires pay { CanPay offers.now fills.now accounts.old }
    ensures { OnOk result (accounts.new ≡ map (paid_by offers.now fills.now) accounts.old) }
{
    if threads < 2 {
        return pay_sellers(alloc, offers, fills, accounts);
    }
    let others = threads - 1;
    let (front, back) = accounts.split_at_mut(accounts.len() / threads);
    let (one, other) = fork_mut(
        rt,
        others < 2,
        &mut || -> Result<(), NoMemory>
            requires { CanPay offers.now fills.now front.now }
            ensures { OnOk result (front.exit.now ≡ map (paid_by offers.entry.now fills.entry.now) front.entry.now) }
        { pay_sellers(alloc, offers, fills, front) },
        &mut || -> Result<(), NoMemory>
            requires { IsSync R.row × (1 ≤ others) × CanPay offers.now fills.now back.now }
            ensures { OnOk result (back.exit.now ≡ map (paid_by offers.entry.now fills.entry.now) back.entry.now) }
        { pay_parts(rt, alloc, offers, fills, others, back) },
    );
    one?;
    other
}
