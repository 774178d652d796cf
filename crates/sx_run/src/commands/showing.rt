//! `show`: one record of any tag, and nothing more.

ghost use Rattle.std.specs.Prelude.{◌≡◌, ◌+◌, ◌^◌, ◌≤◌, [], ◌∷◌, Some, false, Contains, length, IfErr, IfOk, IsErrOf, IsTrue};
ghost use Rattle.sx_base.specs.Outside.{Rose};
ghost use Rattle.sx_input.specs.Found.{ConcludesAs, Found};
ghost use Rattle.sx_input.specs.Stream.{Holds, Reads, Stops, UnlessReadFault};
ghost use Rattle.sx_meaning.specs.Expected.{item_at, record_of};
ghost use Rattle.sx_meaning.specs.Findings.{shown_tags};
ghost use Rattle.sx_meaning.specs.Items.{IsItem, payload_at, payload_of, tag_of};
ghost use Rattle.sx_record.specs.Frame.{MayStand, most_bytes, record_bytes};
ghost use Rattle.sx_record.specs.Stream.{Took};
ghost use Rattle.sx_record.specs.Decoding.{record_at};
ghost use Rattle.sx_run.specs.Showing.{item_of};

use std::alloc::Global;
use std::thread::Threads;
use sx_base::Source;
use sx_bytes::Form;
use sx_input::{Stop, decoded, end, end_of, next, stop_at};
use sx_record::{Record, tag};
use sx_text::{Shown, Text};
use sx_words::{Command, Setting};

// The tags of all records.
const TAGS: [u8; 5] = [
    tag::STATE,
    tag::CANDIDATES,
    tag::BLOCK,
    tag::OUTCOMES,
    tag::SCRIPT,
];

// The record, which has to be there.
fn first<S: Source>(alloc: Global, source: &mut S) -> Result<Record, Stop>
    ensures reads { IfOk result (λ found. Reads (record_at shown_tags 0) (S.left source.old) (S.left source.new) (Some found)) }
    ensures stops { IfErr result (Stops (item_at (record_of shown_tags false false) 0) (S.left source.old) (S.left source.new)) }
    ensures encoded { IfOk result (λ found. Took (S.left source.old) (S.left source.new) (record_bytes found.tag found.payload)) }
    ensures known { IfOk result (MayStand shown_tags 0) }
    ensures steady { UnlessReadFault result (IsTrue (S.strict source.old) → S.faults source.new ≡ S.faults source.old) }
    ensures read_fault { IsErrOf result Stop.ReadFault → Rose (S.faults source.old) (S.faults source.new) }
    ensures falls_never { S.faults source.old ≤ S.faults source.new }
    ensures kept { S.strict source.new ≡ S.strict source.old }
{
    match next(alloc, source, 0, &TAGS)? {
        Some(found) => Ok(found),
        None => Err(stop_at(0, Form::Short)),
    }
}

// What a record holds.
fn shown<R: Threads + Sync>(rt: &R, alloc: Global, found: &Record) -> Result<Shown, Stop>
    requires place { found.now.at ≤ 2 ^ 63 + 5 }
    requires fits { length found.now.payload ≤ most_bytes }
    requires listed { Contains shown_tags found.now.tag }
    ensures exact { Holds item_of found.now.at (payload_at found.now.tag found.now.payload) result }
    ensures form { IfOk result (λ shown. IsItem (item_of shown)) }
    ensures tag { IfOk result (λ shown. tag_of (item_of shown) ≡ found.now.tag) }
    ensures encoded { IfOk result (λ shown. found.now.payload ≡ payload_of (item_of shown)) }
{
    match found.tag {
        tag::STATE => Ok(Shown::State(decoded(rt, alloc, found)?)),
        tag::CANDIDATES => Ok(Shown::Candidates(decoded(rt, alloc, found)?)),
        tag::BLOCK => Ok(Shown::Block(decoded(rt, alloc, found)?)),
        tag::OUTCOMES => Ok(Shown::Outcomes(decoded(rt, alloc, found)?)),
        _ => Ok(Shown::Script(decoded(rt, alloc, found)?)),
    }
}

// The text of it, by as many workers as where a command is given no number of them.
fn text_of<R: Threads + Sync>(rt: &R, alloc: Global, shown: &Shown) -> Result<Text, Stop>
    requires { IsItem (item_of shown.now) }
    ensures concludes { ConcludesAs Command.Show (item_of shown.now ∷ []) result }
    ensures calm { IsErrOf result Stop.ReadFault → ⊥ }
{
    let workers = Setting::Workers.default();
    Ok(sx_text::par_show(rt, alloc, shown, workers)?)
}

// The text of what the record of the input holds.
pub fn show<R: Threads + Sync, S: Source>(
    rt: &R,
    alloc: Global,
    source: &mut S,
) -> Result<Text, Stop>
    ensures found { Found Command.Show (S.left source.old) (S.left source.new) result }
    ensures steady { UnlessReadFault result (IsTrue (S.strict source.old) → S.faults source.new ≡ S.faults source.old) }
    ensures read_fault { IsErrOf result Stop.ReadFault → Rose (S.faults source.old) (S.faults source.new) }
{
    let found = first(alloc, source)?;
    let shown = shown(rt, alloc, &found)?;
    end(alloc, source, end_of(&found))?;
    text_of(rt, alloc, &shown)
}
