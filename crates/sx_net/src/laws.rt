//! Laws of the nodes that open arcs lead to.

ghost use Rattle.sx_net.specs.Laws.{NoneLeaves, CutRefutes};

/// No open arc leaves the nodes that open arcs lead to. Where a set of nodes has the tail and not the
/// head, and no open arc leaves it, no open arcs lead from the tail to the head.
pub fn net_laws()
    ensures leaves { NoneLeaves }
    ensures cut { CutRefutes }
{}
