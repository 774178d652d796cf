//! Numbers in plain decimal.

ghost use Rattle.std.specs.Prelude.{◌≡◌, ◌≢◌, ◌≤◌, ◌↔◌, IfSome, IsTrue, length, slice_index};
ghost use Rattle.sx_words.specs.Numbers.{number_in};

// Whether digits have no sign, and no zero before another digit.
fn is_bare(digits: &[u8]) -> bool
    ensures { IsTrue result
        ↔ ((slice_index digits.now 0 ≢ 43) × (slice_index digits.now 0 ≡ 48 → length digits.now ≤ 1)) }
{
    match digits {
        [b'+', ..] => false,
        [b'0', _, ..] => false,
        _ => true,
    }
}

// The number that a word spells, where it is in this range.
pub(crate) fn number(word: &str, least: u64, most: u64) -> Option<u64>
    ensures value { result ≡ number_in least most word.now }
    ensures range { IfSome result (λ number. (least ≤ number) × (number ≤ most)) }
{
    if !is_bare(word.as_bytes()) {
        return None;
    }
    match word.parse::<u64>() {
        Ok(number) if least <= number && number <= most => Some(number),
        _ => None,
    }
}
