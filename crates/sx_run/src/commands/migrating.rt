//! `migrate`: a state, and nothing more.

ghost use Rattle.std.specs.Prelude.{◌≡◌, [], ◌∷◌, IsErrOf, IsTrue};
ghost use Rattle.sx_base.specs.Outside.{Rose};
ghost use Rattle.sx_input.specs.Found.{ConcludesAs, Found};
ghost use Rattle.sx_input.specs.Stream.{UnlessReadFault};
ghost use Rattle.sx_meaning.specs.Items as item;

use crate::pieces::Pieces;
use crate::state_writing::state_in_pieces;
use std::alloc::Global;
use std::thread::Threads;
use sx_base::Source;
use sx_input::{Stop, end, take};
use sx_ledger::Ledger;
use sx_words::Command;

// The record of a state in version 2.
fn newest<R: Threads + Sync>(rt: &R, alloc: Global, ledger: Ledger) -> Result<Pieces, Stop>
    ensures concludes { ConcludesAs Command.Migrate (item.state ledger ∷ []) result }
    ensures calm { IsErrOf result Stop.ReadFault → ⊥ }
{
    let migrated = ledger.migrate();
    Ok(state_in_pieces(rt, alloc, &migrated)?)
}

// The record of the state of the input in version 2.
pub fn migrate<R: Threads + Sync, S: Source>(
    rt: &R,
    alloc: Global,
    source: &mut S,
) -> Result<Pieces, Stop>
    ensures found { Found Command.Migrate (S.left source.old) (S.left source.new) result }
    ensures steady { UnlessReadFault result (IsTrue (S.strict source.old) → S.faults source.new ≡ S.faults source.old) }
    ensures read_fault { IsErrOf result Stop.ReadFault → Rose (S.faults source.old) (S.faults source.new) }
{
    let opening = take::<Ledger, R, S>(rt, alloc, source, 0)?;
    end(alloc, source, opening.end)?;
    newest(rt, alloc, opening.held)
}
