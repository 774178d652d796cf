//! The line of a valid block.

ghost use Rattle.std.specs.Prelude.{◌≡◌, IfOk};
ghost use Rattle.sx_text.specs.Texts.{bounds_text, checked_text};

use crate::text::Text;
use std::alloc::Global;
use sx_block::Checked;
use sx_bytes::NoMemory;

// What became of the lower bounds.
pub(crate) fn bounds(dropped: bool) -> &'static str
    ensures { result.now ≡ bounds_text dropped }
{
    if dropped { "dropped" } else { "kept" }
}

/// The line that says of a block that it is valid: its height, the value that it trades, in units of
/// `2^-24`, and whether lower bounds were kept or dropped.
pub fn check_line(alloc: Global, checked: &Checked) -> Result<Text, NoMemory>
    ensures { IfOk result (λ text. text ≡ checked_text checked.now) }
{
    let height = checked.height;
    let value = checked.value;
    let bounds = bounds(checked.dropped);
    let text = format!(in alloc; "valid height {height} value {value} bounds {bounds}\n")?;
    Ok(Text::of(text))
}
