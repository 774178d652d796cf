//! The line that says how a run ended.

ghost use Rattle.std.specs.Prelude.{◌≡◌, IfOk, OnOk, string_bytes};
ghost use Rattle.sx_text.specs.Texts.{fault_text, refusal_text, status_text};

use crate::reasons::put_reason;
use crate::status::Status;
use crate::text::Text;
use std::alloc::Global;
use sx_block::Invalid;
use sx_bytes::{FormFault, NoMemory};

fn usage(alloc: Global) -> Result<String, NoMemory>
    ensures { IfOk result (λ text. string_bytes text ≡ status_text Status.Usage) }
{
    let line =
        "usage: speedex seal, replay, check, show, interleave, migrate, filter, prove ID, verify, follow or demo N\n";
    Ok(String::from_str(alloc, line)?)
}

fn malformed(alloc: Global, fault: FormFault) -> Result<String, NoMemory>
    ensures { IfOk result (λ text. string_bytes text ≡ fault_text fault) }
{
    let at = fault.at;
    let number = fault.fault.number();
    let name = fault.fault.name();
    Ok(format!(in alloc; "malformed at {at}: {number} {name}\n")?)
}

fn refusal(alloc: Global, block: u32, why: &Invalid) -> Result<String, NoMemory>
    ensures { IfOk result (λ text. string_bytes text ≡ refusal_text block why.now) }
{
    let mut text = format!(in alloc; "refused block {block}: ")?;
    put_reason(&mut text, why)?;
    text.push_str("\n")?;
    Ok(text)
}

/// The line that says how a run ended: nothing at `Done`, else one line with its line feed.
pub fn status_line(alloc: Global, status: &Status) -> Result<Text, NoMemory>
    ensures { IfOk result (λ text. text ≡ status_text status.now) }
{
    let text = match status {
        Status::Done => String::from_str(alloc, "")?,
        Status::Usage => usage(alloc)?,
        Status::ReadFault => String::from_str(alloc, "read fault\n")?,
        Status::WriteFault => String::from_str(alloc, "write fault\n")?,
        Status::NoMemory => String::from_str(alloc, "out of memory\n")?,
        Status::Malformed(fault) => malformed(alloc, *fault)?,
        Status::Refused { block, why } => refusal(alloc, *block, why)?,
    };
    Ok(Text::of(text))
}
