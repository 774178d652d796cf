//! The arcs, and the lists of those that leave each node.
//!
//! A node has two lists: number `2 * node` is of the arcs that can carry something, and number
//! `2 * node + 1` of the others, which a search for more than nothing never looks at. With each arc its
//! link is kept, so that it goes from one list to the other in a constant number of steps.

ghost use Rattle.std.specs.Prelude.{◌≡◌, ◌<◌, ◌+◌, ◌*◌, ◌^◌, ◌++◌, ◌∷◌, [], length, slice_set, vec_len, vec_capacity};
ghost use Rattle.sx_net.specs.Arcs.{tail_of};
ghost use Rattle.sx_net.specs.Leaving.{AreListed, can_carry, list_of};

use crate::arc::{Arc, look_up};
use sx_links::Links;

// Whether a search for more than nothing may use an arc.
fn is_usable(arc: &Arc) -> bool
    ensures { result ≡ can_carry arc.now }
{
    arc.allowed && arc.left > 0 && arc.tail != arc.head
}

// The number of an arc's list.
fn list_number(arc: &Arc) -> u32
    requires { 2 * arc.now.tail + 1 < 2 ^ 32 }
    ensures { result ≡ list_of arc.now }
{
    if is_usable(arc) {
        2 * arc.tail
    } else {
        2 * arc.tail + 1
    }
}

// Puts an arc at the end of the arcs, and into its list.
pub fn enter(leaving: &mut Links<u32>, links: &mut Vec<u32>, arcs: &mut Vec<Arc>, arc: Arc)
    requires spare { 0 < leaving.old.spare }
    requires room { vec_len arcs.old < vec_capacity arcs.old }
    requires link_room { vec_len links.old < vec_capacity links.old }
    requires few { vec_len arcs.old < 2 ^ 32 }
    requires tail { 2 * arc.tail + 1 < length leaving.old.lists }
    requires listed { AreListed leaving.old.lists links.old.items arcs.old.items (length arcs.old.items) }
    ensures arcs { arcs.new.items ≡ arcs.old.items ++ arc ∷ [] }
    ensures capacity { vec_capacity arcs.new ≡ vec_capacity arcs.old }
    ensures link_capacity { vec_capacity links.new ≡ vec_capacity links.old }
    ensures listed { AreListed leaving.new.lists links.new.items arcs.new.items (length arcs.new.items) }
    ensures lists { length leaving.new.lists ≡ length leaving.old.lists }
    ensures spare { leaving.new.spare + 1 ≡ leaving.old.spare }
{
    let number = arcs.len() as u32;
    let link = leaving.push_after(list_number(&arc), None, number);
    links.push_reserved(link);
    arcs.push_reserved(arc);
}

// Puts an arc in the place of one that leaves the same node, and into its list.
pub fn replace(leaving: &mut Links<u32>, links: &mut [u32], arcs: &mut [Arc], number: u32, arc: Arc)
    requires number { number < length arcs.old }
    requires tail { arc.tail ≡ tail_of arcs.old number }
    requires listed { AreListed leaving.old.lists links.old arcs.old (length arcs.old) }
    ensures arcs { arcs.new ≡ slice_set arcs.old number arc }
    ensures listed { AreListed leaving.new.lists links.new arcs.new (length arcs.new) }
    ensures links { length links.new ≡ length links.old }
    ensures lists { length leaving.new.lists ≡ length leaving.old.lists }
    ensures spare { leaving.new.spare ≡ leaving.old.spare }
{
    let list = list_number(&arc);
    let before = look_up(arcs, number);
    let moves = list != list_number(&before);
    arcs[number as usize] = arc;
    if moves {
        leaving.unlink(links[number as usize]);
        links[number as usize] = leaving.push_after(list, None, number);
    }
}
