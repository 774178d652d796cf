//! Encoding a script. Where memory runs out, what was written is taken back.

ghost use Rattle.std.specs.Prelude.{◌≡◌, ◌++◌, OnOk, OnErr};
ghost use Rattle.sx_bytes.specs.Written.{Begins};
ghost use Rattle.sx_outcome.specs.Scripts.{script_bytes, IsScript};

use crate::script::Script;
use sx_bytes::{NoMemory, Writer};

#[tactic(auto, using(sx_bytes::proofs::Written::begins, sx_bytes::proofs::Written::begins_then))]
fn put_script(to: &mut Writer, script: &Script) -> Result<(), NoMemory>
    requires { IsScript script.now }
    ensures ok { OnOk result (to.new ≡ to.old ++ script_bytes script.now) }
    ensures err { OnErr result (Begins to.old to.new) }
{
    let turns = script.turns.items();
    to.put_u8(script.actors as u8)?;
    to.put_u32(turns.len() as u32)?;
    to.raw(turns)
}

/// Appends the encoding of a payload of a script: the number of actors, the number of turns, and the
/// turns. `NoMemory` does not change what was written before.
#[tactic(auto, using(sx_bytes::proofs::Written::begins_cut))]
pub fn write_script(to: &mut Writer, script: &Script) -> Result<(), NoMemory>
    requires { IsScript script.now }
    ensures ok { OnOk result (to.new ≡ to.old ++ script_bytes script.now) }
    ensures err { OnErr result (to.new ≡ to.old) }
{
    let before = to.bytes().len();
    let written = put_script(to, script);
    if written.is_err() {
        to.cut(before);
    }
    written
}
