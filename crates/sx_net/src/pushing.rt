//! What a push changes.

ghost use Rattle.std.specs.Prelude.{◌≡◌, ◌<◌, ◌≤◌, ◌^◌, ℕ, length, All};
ghost use Rattle.sx_net.specs.Arcs.{tail_of, head_of, left_of, room_of};
ghost use Rattle.sx_net.specs.Leaving.{AreListed};
ghost use Rattle.sx_net.specs.Network.{Pushes, MovesRoom};
ghost use Rattle.sx_net.specs.Paths.{Leads};
ghost use Rattle.sx_net.specs.Sound.{HasReverse, IsPushable, Shifts};

use crate::arc::{Arc, look_up, reverse};
use crate::leaving::replace;
use sx_links::Links;

// Moves an amount of what an arc has left to its reverse.
fn shift(leaving: &mut Links<u32>, links: &mut [u32], arcs: &mut [Arc], arc: u32, amount: u128)
    requires arc { arc < length arcs.old }
    requires reverse { HasReverse arcs.old arc }
    requires enough { amount ≤ left_of arcs.old arc }
    requires room { room_of arcs.old arc < 2 ^ 128 }
    requires few { length arcs.old < 2 ^ 32 }
    requires listed { AreListed leaving.old.lists links.old arcs.old (length arcs.old) }
    ensures shifted { Shifts arcs.old arcs.new arc amount }
    ensures moved { MovesRoom arcs.old arcs.new (tail_of arcs.old arc) (head_of arcs.old arc) amount }
    ensures listed { AreListed leaving.new.lists links.new arcs.new (length arcs.new) }
    ensures links { length links.new ≡ length links.old }
    ensures lists { length leaving.new.lists ≡ length leaving.old.lists }
    ensures spare { leaving.new.spare ≡ leaving.old.spare }
{
    let forth = look_up(arcs, arc);
    let left = forth.left - amount;
    replace(leaving, links, arcs, arc, Arc { left, ..forth });
    let number = reverse(arc);
    let back = look_up(arcs, number);
    let left = back.left + amount;
    replace(leaving, links, arcs, number, Arc { left, ..back });
}

// Pushes an amount along a path.
pub fn push_along(
    leaving: &mut Links<u32>,
    links: &mut [u32],
    arcs: &mut [Arc],
    path: &[u32],
    amount: u128,
)
    requires path { IsPushable (length arcs.old) path.now }
    requires reverses { (a : ℕ) → a < length arcs.old → HasReverse arcs.old a }
    requires rooms { (a : ℕ) → a < length arcs.old → room_of arcs.old a < 2 ^ 128 }
    requires enough { All (λ a. amount ≤ left_of arcs.old a) path.now }
    requires few { length arcs.old < 2 ^ 32 }
    requires listed { AreListed leaving.old.lists links.old arcs.old (length arcs.old) }
    ensures pushed { Pushes arcs.old arcs.new path.now amount }
    ensures moved { (tail head : ℕ) → Leads arcs.old tail path.now head → MovesRoom arcs.old arcs.new tail head amount }
    ensures listed { AreListed leaving.new.lists links.new arcs.new (length arcs.new) }
    ensures links { length links.new ≡ length links.old }
    ensures lists { length leaving.new.lists ≡ length leaving.old.lists }
    ensures spare { leaving.new.spare ≡ leaving.old.spare }
{
    for arc in path {
        shift(leaving, links, arcs, *arc, amount);
    }
}
