//! A record is written as its frame and its payload.

ghost use Rattle.std.specs.Prelude.{◌≡◌, ◌+◌, ◌≤◌, ◌++◌, length, OnOk, OnErr};
ghost use Rattle.sx_record.specs.Frame.{most_bytes, frame_bytes, frame, record_bytes};

use crate::frame::FRAME_BYTES;
use byteorder::{BigEndian, ByteOrder};
use sx_bytes::{NoMemory, Writer};

/// Appends the frame of a record: its tag, and the length of its payload in bytes. A caller that
/// knows the length can append the payload after it, and need not hold the payload first: the memory
/// for all of it is taken here at once.
///
/// `NoMemory` does not change the writer.
pub fn write_frame(to: &mut Writer, tag: u8, size: u32) -> Result<(), NoMemory>
    requires { size ≤ most_bytes }
    ensures ok { OnOk result (to.new ≡ to.old ++ frame tag size) }
    ensures size { OnOk result (length to.new ≡ length to.old + frame_bytes) }
    ensures err { OnErr result (to.new ≡ to.old) }
{
    to.reserve(FRAME_BYTES as usize + size as usize)?;
    let mut field = [tag, 0, 0, 0, 0];
    BigEndian::write_u32(&mut field[1..], size);
    to.raw(&field)
}

/// Appends a record: its frame and its payload.
///
/// `NoMemory` does not change the writer.
#[tactic(auto, using(sx_bytes::proofs::Written::begins))]
pub fn write_record(to: &mut Writer, tag: u8, payload: &[u8]) -> Result<(), NoMemory>
    requires { length payload.now ≤ most_bytes }
    ensures ok { OnOk result (to.new ≡ to.old ++ record_bytes tag payload.now) }
    ensures err { OnErr result (to.new ≡ to.old) }
{
    let before = to.bytes().len();
    write_frame(to, tag, payload.len() as u32)?;
    let written = to.raw(payload);
    if written.is_err() {
        to.cut(before);
    }
    written
}
