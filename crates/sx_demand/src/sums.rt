//! The sums of a table's columns and rows.

ghost use Rattle.std.specs.Prelude.{◌≡◌, ◌+◌, ◌*◌, ◌<◌, ◌≤◌, ◌^◌, All, length, map, unsigned_abs, pos, ◌-ℤ◌};
ghost use Rattle.std.specs.List.{range_with_len};
ghost use Rattle.sx_demand.specs.Table.{AreColumns, AreRows, net_in, out_in, volume_in};

use crate::table::{Entry, ROW};

// Adds the values of a row to the sums of their columns over the rows before it. The answer is the sum
// of the row. Each of the 32 values is at most 2^102.
fn add_row(entries: &[Entry], sell: usize, columns: &mut [u128]) -> u128
    requires full { length entries.now ≡ 32 * length columns.old }
    requires few { length columns.old ≤ 32 }
    requires sell { sell < length columns.old }
    requires in_range { All (λ entry. entry.value ≤ 2 ^ 102) entries.now }
    requires columns { AreColumns entries.now sell columns.old }
    ensures row { result ≡ out_in entries.now (length columns.old) sell }
    ensures columns { AreColumns entries.now (sell + 1) columns.new }
    ensures size { length columns.new ≡ length columns.old }
{
    let assets = columns.len();
    let mut row = 0;
    for buy in 0..assets {
        let value = entries[sell * ROW + buy].value;
        columns[buy] += value;
        row += value;
    }
    row
}

// Writes the sum of each column and of each row.
fn write_sums(entries: &[Entry], columns: &mut [u128], rows: &mut [u128])
    requires full { length entries.now ≡ 32 * length columns.old }
    requires few { length columns.old ≤ 32 }
    requires same { length rows.old ≡ length columns.old }
    requires in_range { All (λ entry. entry.value ≤ 2 ^ 102) entries.now }
    ensures columns { AreColumns entries.now (length columns.old) columns.new }
    ensures rows { AreRows entries.now (length columns.old) rows.new }
    ensures columns_size { length columns.new ≡ length columns.old }
    ensures rows_size { length rows.new ≡ length columns.old }
{
    columns.fill(0);
    for sell in 0..columns.len() {
        rows[sell] = add_row(entries, sell, columns);
    }
}

// By how much the one sum is above the other.
fn difference(into: u128, out: u128) -> i128
    requires into { into ≤ 2 ^ 107 }
    requires out { out ≤ 2 ^ 107 }
    ensures { result ≡ pos into -ℤ pos out }
{
    into as i128 - out as i128
}

// By how much more value is wanted of each asset than is sold of it, at most 2^107 either way, and both
// values together, at most 2^108. It takes room for the sums of the columns.
pub(crate) fn write_excess(
    entries: &[Entry],
    columns: &mut [u128],
    nets: &mut [i128],
    volumes: &mut [u128],
)
    requires full { length entries.now ≡ 32 * length nets.old }
    requires few { length nets.old ≤ 32 }
    requires columns { length columns.old ≡ length nets.old }
    requires volumes { length volumes.old ≡ length nets.old }
    requires in_range { All (λ entry. entry.value ≤ 2 ^ 102) entries.now }
    ensures nets { nets.new ≡ map (net_in entries.now (length nets.old)) (range_with_len 0 (length nets.old)) }
    ensures volumes { volumes.new ≡ map (volume_in entries.now (length nets.old)) (range_with_len 0 (length nets.old)) }
    ensures nets_range { All (λ net. unsigned_abs net ≤ 2 ^ 107) nets.new }
    ensures volumes_range { All (λ volume. volume ≤ 2 ^ 108) volumes.new }
    ensures columns_size { length columns.new ≡ length nets.old }
{
    write_sums(entries, columns, volumes);
    for asset in 0..nets.len() {
        let (into, out) = (columns[asset], volumes[asset]);
        nets[asset] = difference(into, out);
        volumes[asset] = into + out;
    }
}
