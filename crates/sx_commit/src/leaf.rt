//! Laying the bytes of an account's leaf out in a text: memory that holds more bytes than the leaf has.

ghost use Rattle.std.specs.Prelude.{◌≡◌, ◌+◌, ◌*◌, ◌≤◌, ◌∷◌, ◌++◌, length, take};
ghost use Rattle.std.specs.List.{flat_map};
ghost use Rattle.byteorder.specs.Endian.{big_bytes};
ghost use Rattle.sx_state.specs.Encoding.{window_bytes};

use crate::hashing::LEAF;
use sx_ledger::Account;
use sx_tx::Window;

// Writes bytes at a place of a text, and answers the place after them.
pub(crate) fn put_bytes(text: &mut [u8], place: usize, bytes: &[u8]) -> usize
    requires { place + length bytes.now ≤ length text.old }
    ensures end { result ≡ place + length bytes.now }
    ensures length { length text.new ≡ length text.old }
    ensures bytes { take result text.new ≡ take place text.old ++ bytes.now }
{
    let end = place + bytes.len();
    text[place..end].copy_from_slice(bytes);
    end
}

// Writes a number in 8 bytes at a place of a text, and answers the place after it.
fn put_u64(text: &mut [u8], place: usize, number: u64) -> usize
    requires { place + 8 ≤ length text.old }
    ensures end { result ≡ place + 8 }
    ensures length { length text.new ≡ length text.old }
    ensures bytes { take result text.new ≡ take place text.old ++ big_bytes 8 number }
{
    put_bytes(text, place, &number.to_be_bytes())
}

// Writes the window of an account at a place of a text, and answers the place after it.
fn put_window(text: &mut [u8], place: usize, version: u8, window: &Window) -> usize
    requires { place + 16 ≤ length text.old }
    ensures end { result ≤ place + 16 }
    ensures length { length text.new ≡ length text.old }
    ensures bytes { take result text.new ≡ take place text.old ++ window_bytes version window.now }
{
    let end = put_u64(text, place, window.last);
    if version == 1 {
        return end;
    }
    put_u64(text, end, window.used)
}

// Writes balances at a place of a text, and answers the place after them.
fn put_balances(text: &mut [u8], place: usize, balances: &[u64]) -> usize
    requires { place + 8 * length balances.now ≤ length text.old }
    ensures end { result ≡ place + 8 * length balances.now }
    ensures length { length text.new ≡ length text.old }
    ensures bytes { take result text.new ≡ take place text.old ++ flat_map (big_bytes 8) balances.now }
{
    let mut end = place;
    for units in balances {
        end = put_u64(text, end, *units);
    }
    end
}

// Writes the leaf of an account, with these balances in place of its own, at the start of a text, and answers the place
// after it.
pub(crate) fn put_leaf(text: &mut [u8], version: u8, account: &Account, balances: &[u64]) -> usize
    requires { 26 + 8 * length balances.now ≤ length text.old }
    ensures end { result ≤ length text.old }
    ensures length { length text.new ≡ length text.old }
    ensures bytes { take result text.new ≡ 0 ∷ version ∷ (big_bytes 8 account.now.id.0
        ++ (window_bytes version account.now.window ++ flat_map (big_bytes 8) balances.now)) }
{
    let end = put_bytes(text, 0, &[LEAF, version]);
    let end = put_u64(text, end, account.id.0);
    let end = put_window(text, end, version, &account.window);
    put_balances(text, end, balances)
}
