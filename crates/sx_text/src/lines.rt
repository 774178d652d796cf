//! What lines are made of.

ghost use Rattle.std.specs.Prelude.{◌≡◌, ◌++◌, OnOk, string_bytes};
ghost use Rattle.sx_text.specs.Pieces.{count_line, digest_line, spaced};

use sx_block::Digest;
use sx_bytes::NoMemory;

/// Appends a word as it is.
pub fn put_word(to: &mut String, word: &str) -> Result<(), NoMemory>
    ensures { OnOk result (string_bytes to.new ≡ string_bytes to.old ++ word.now) }
{
    to.push_str(word)?;
    Ok(())
}

/// Appends numbers, a space before each.
pub fn put_spaced(to: &mut String, numbers: &[u64]) -> Result<(), NoMemory>
    ensures { OnOk result (string_bytes to.new ≡ string_bytes to.old ++ spaced numbers.now) }
{
    for number in numbers {
        let number = *number;
        write!(to, " {number}")?;
    }
    Ok(())
}

/// Appends the line that says how many there are of what has this name.
pub fn put_count(to: &mut String, name: &str, count: usize) -> Result<(), NoMemory>
    ensures { OnOk result (string_bytes to.new ≡ string_bytes to.old ++ count_line name.now count) }
{
    write!(to, "{name} {count}\n")?;
    Ok(())
}

/// Appends the line of a digest under this name.
pub fn put_digest(to: &mut String, name: &str, digest: &Digest) -> Result<(), NoMemory>
    ensures { OnOk result (string_bytes to.new ≡ string_bytes to.old ++ digest_line name.now digest.now) }
{
    let digits = hex::encode(*to.allocator(), digest.bytes())?;
    write!(to, "{name} {digits}\n")?;
    Ok(())
}
