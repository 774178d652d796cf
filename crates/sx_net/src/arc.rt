//! One arc of a net.

ghost use Rattle.std.specs.Prelude.{◌≡◌, ◌<◌, ◌^◌, ◌↔◌, length, IsTrue};
ghost use Rattle.sx_net.specs.Arcs.{arc_at, reverse_of, IsOpen};

#[derive(Clone, Copy)]
pub struct Arc {
    // What is left of its room. It stands first, so that an arc takes 32 bytes.
    pub left: u128,
    // The node that it leaves and the node that it leads to.
    pub tail: u32,
    pub head: u32,
    pub allowed: bool,
}

// The arc of a number.
pub fn look_up(arcs: &[Arc], arc: u32) -> Arc
    requires { arc < length arcs.now }
    ensures { result ≡ arc_at arcs.now arc }
{
    arcs[arc as usize]
}

// Whether an arc is allowed and has at least this much left.
pub fn is_open(arcs: &[Arc], least: u128, arc: u32) -> bool
    requires { arc < length arcs.now }
    ensures { IsTrue result ↔ IsOpen arcs.now least arc }
{
    let found = look_up(arcs, arc);
    found.allowed && found.left >= least
}

// The number of an arc's reverse.
pub fn reverse(arc: u32) -> u32
    requires { reverse_of arc < 2 ^ 32 }
    ensures { result ≡ reverse_of arc }
{
    if arc % 2 == 0 { arc + 1 } else { arc - 1 }
}
