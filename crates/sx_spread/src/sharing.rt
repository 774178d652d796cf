//! How work is shared out.

ghost use Rattle.std.specs.Prelude.{◌≤◌};

// Fewer entries than this are not worth a thread of their own.
const LEAST: usize = 8_192;

// How many of the workers get a share of so many entries.
pub fn sharers(entries: usize, workers: u32) -> usize
    requires { 1 ≤ workers }
    ensures some { 1 ≤ result }
    ensures few { result ≤ workers }
{
    (entries / LEAST).clamp(1, workers as usize)
}
