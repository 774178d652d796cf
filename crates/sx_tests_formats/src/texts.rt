//! The text of a state that threads make. Stored cases have the texts of the other records and of the statuses.

ghost use Rattle.std.specs.Prelude.{◌≤◌};

use std::alloc::{AllocError, Global};
use std::thread::Threads;
use sx_bytes::{NoMemory, Writer};
use sx_state::read_state;
use sx_text::{Shown, par_show};

// What stands before the accounts in a state of one asset.
fn put_head(to: &mut Writer) -> Result<(), NoMemory> {
    to.put_u8(1)?;
    to.put_u64(0)?;
    to.put_u8(1)?;
    to.put_u64(1 << 24)?;
    to.put_u64(0)?;
    Ok(())
}

// The accounts from 1 on, so many of them, as a list of a state has them. Each has as many units as its id says.
fn put_accounts(to: &mut Writer, count: u32) -> Result<(), NoMemory> {
    to.put_u32(count)?;
    for place in 0..u64::from(count) {
        to.put_u64(place + 1)?;
        to.put_u64(0)?;
        to.put_u64(place + 1)?;
    }
    Ok(())
}

// A state of one asset and so many accounts, which has no offers.
fn wide_state(alloc: Global, count: u32) -> Result<Writer, NoMemory> {
    let mut payload = Writer::new(alloc);
    put_head(&mut payload)?;
    put_accounts(&mut payload, count)?;
    payload.put_u32(0)?;
    Ok(payload)
}

// The text of it.
fn wide_text(alloc: Global, count: u32) -> Result<String, AllocError> {
    let mut text = String::new(alloc);
    text.push_str("state version 1 height 0 assets 1\nasset 0 price 16777216 rounding 0\n")?;
    for place in 0..u64::from(count) {
        let id = place + 1;
        write!(text, "account {id} last 0 balances {id}\n")?;
    }
    Ok(text)
}

// Whether so many workers show the state of a payload as this text.
fn shows<R: Threads + Sync>(
    rt: &R,
    alloc: Global,
    payload: &[u8],
    workers: u32,
    wanted: &str,
) -> Option<bool>
    requires { 1 ≤ workers }
{
    let shown = Shown::State(read_state(alloc, payload).ok()?);
    let text = par_show(rt, alloc, &shown, workers).ok()?;
    Some(text.bytes() == wanted.as_bytes())
}

// Whether so many workers show 20,000 accounts in their order.
fn shows_wide<R: Threads + Sync>(rt: &R, alloc: Global, workers: u32) -> Option<bool>
    requires { 1 ≤ workers }
{
    let payload = wide_state(alloc, 20_000).ok()?;
    let wanted = wide_text(alloc, 20_000).ok()?;
    shows(rt, alloc, payload.bytes(), workers, wanted.as_str())
}

#[test]
fn threads_show_accounts_in_their_order(rt: HostRuntime) {
    assert!(rt; shows_wide(&rt, rt.alloc(), 1) == Some(true));
    assert!(rt; shows_wide(&rt, rt.alloc(), 3) == Some(true));
    assert!(rt; shows_wide(&rt, rt.alloc(), 4) == Some(true));
}
