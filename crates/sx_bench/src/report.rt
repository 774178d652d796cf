use std::io;

/// How many times a call is run. The least time counts.
pub const ROUNDS: u32 = 5;

// Nanoseconds of a second.
const SECOND: u128 = 1_000_000_000;

/// Prints one line: the title, the seconds with six decimals, and how many of a unit a second that is.
pub fn print(
    rt: &impl Print,
    title: &str,
    nanoseconds: u128,
    count: u64,
    unit: &str,
) -> io::Result<()> {
    let seconds = nanoseconds / SECOND;
    let micros = nanoseconds % SECOND / 1000;
    let speed = u128::from(count) * SECOND / nanoseconds.max(1);
    println!(rt; "{title} {seconds}.{micros:06} s {speed} {unit}/s")
}
