//! One bit of a word.
ghost use Rattle.std.specs.Prelude.{◌≡◌, ◌<◌};
ghost use Rattle.sx_event.specs.Step.{has_bit as is_set, word_after_claim};

// Whether the word has the bit.
pub fn has_bit(word: u64, bit: u32) -> bool
    requires { bit < 64 }
    ensures { result ≡ is_set word bit }
{
    word >> bit & 1 == 1
}

// The word with the bit set.
pub fn with_bit(word: u64, bit: u32) -> u64
    requires { bit < 64 }
    ensures { result ≡ word_after_claim bit word }
{
    word | 1 << bit
}
