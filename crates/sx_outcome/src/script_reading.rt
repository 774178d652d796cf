//! Decoding a script from left to right, with the first fault.

ghost use Rattle.std.specs.Prelude.{◌≡◌, ◌<◌, length, IfOk, IfSome, Ok, nat_le};
ghost use Rattle.std.specs.List.{position_from};
ghost use Rattle.sx_bytes.specs.Grammar.{MayDecodeOrStray, Gives, many_at};
ghost use Rattle.sx_outcome.specs.declared.script.Script.{Script};
ghost use Rattle.sx_outcome.specs.ScriptDecoding.{turn_at, script_fields_at, script_at};
ghost use Rattle.sx_outcome.specs.Scripts.{script_bytes, IsScript};

use crate::fault::fault_at;
use crate::script::{MOST_ACTORS, MOST_TURNS, Script};
use std::alloc::Global;
use sx_bytes::{Bytes, Form, ReadError, Reader};

// The place of the first turn of an actor that is not there.
fn first_beyond(turns: &[u8], actors: u8) -> Option<usize>
    ensures place { result ≡ position_from (nat_le actors) 0 turns.now }
    ensures within { IfSome result (λ place. place < length turns.now) }
{
    turns.iter().position(|&turn| turn >= actors)
}

// Turns, as many as the count says. Their bytes are tested in one pass and copied at once.
fn read_turns(alloc: Global, from: &mut Reader, actors: u8, count: u32) -> Result<Bytes, ReadError>
    ensures { MayDecodeOrStray (λ x. x) (many_at (turn_at actors) count from.old) from.new result }
{
    let at = from.place();
    let turns = from.raw(from.left().min(count as usize))?;
    let end = from.place();
    if let Some(place) = first_beyond(turns, actors) {
        return Err(fault_at(at + place, Form::Actor));
    }
    if turns.len() < count as usize {
        return Err(fault_at(end, Form::Short));
    }
    Ok(Bytes::of(Vec::from_slice(alloc, turns)?))
}

#[tactic(auto, unfolding(crate::specs::ScriptDecoding::script_fields_at))]
fn read_fields(alloc: Global, from: &mut Reader) -> Result<Script, ReadError>
    ensures { MayDecodeOrStray (λ x. x) (script_fields_at from.old) from.new result }
{
    let actors = from.field_u8(1, MOST_ACTORS, Form::Actor)?;
    let count = from.field_u32(0, MOST_TURNS, Form::TooMany)?;
    let turns = read_turns(alloc, from, actors, count)?;
    let actors = u32::from(actors);
    Ok(Script { actors, turns })
}

#[tactic(auto, unfolding(crate::specs::ScriptDecoding::script_at))]
fn read_whole(alloc: Global, payload: &[u8]) -> Result<Script, ReadError>
    ensures { Gives (λ script. script) result (script_at payload.now) }
{
    let mut from = Reader::new(payload);
    let script = read_fields(alloc, &mut from)?;
    if from.left() != 0 {
        return Err(fault_at(from.place(), Form::Rest));
    }
    Ok(script)
}

/// The script that a payload encodes, all of the payload. An error is the first fault from left to
/// right, its offset counted from the payload's first byte, or `NoMemory`, which may come in place of
/// any other answer.
///
/// The faults are `Actor` where the number of actors is not 1 to 8, or at a turn that is not below it,
/// `TooMany` of a count of turns above `MOST_TURNS`, `Short` where a field passes the end, and `Rest`
/// at the first byte after the last turn.
pub fn read_script(alloc: Global, payload: &[u8]) -> Result<Script, ReadError>
    // It answers a script only where the payload is its encoding.
    ensures found { IfOk result (λ script. IsScript script × (payload.now ≡ script_bytes script)) }
    // It does so for every encoding, unless memory runs out.
    ensures only { (script : Script) → IsScript script → payload.now ≡ script_bytes script →
        Gives (λ found. found) result (Ok script) }
    // Which fault it is.
    ensures exact { Gives (λ script. script) result (script_at payload.now) }
{
    read_whole(alloc, payload)
}
