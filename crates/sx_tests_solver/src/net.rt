ghost use Rattle.std.specs.Prelude.{◌≡◌, ◌<◌, length, IfOk};

use std::alloc::Global;
use std::marker::Brand;
use std::sync::ledger::{Blank, Ledger};
use sx_bytes::NoMemory;
use sx_net::*;

// The net of the drawing at the head of the crate, before its push: arcs 0, 2, 4 and 6 from left to
// right, the upper ones first.
fn diamond(alloc: Global) -> Result<Net, NoMemory>
    ensures nodes { IfOk result (λ net. net.nodes ≡ 4) }
    ensures arcs { IfOk result (λ net. length net.arcs ≡ 8) }
{
    let mut net = Net::new(alloc, 4, 4)?;
    net.arc(0, 1, 3);
    net.arc(1, 3, 2);
    net.arc(0, 2, 1);
    net.arc(2, 3, 4);
    Ok(net)
}

// Pushes an amount from node 0 to node 3 where a path has that much left.
fn augment<L: Ledger>(net: &mut Net, amount: u128, steps: &mut Steps<L>) -> bool
    requires { net.old.nodes ≡ 4 }
    ensures nodes { net.new.nodes ≡ net.old.nodes }
    ensures arcs { length net.new.arcs ≡ length net.old.arcs }
{
    let found = net.search(0, 3, amount, steps);
    if found {
        net.push(amount);
    }
    found
}

fn lefts(net: &Net) -> [u128; 8]
    requires { length net.now.arcs ≡ 8 }
{
    [
        net.left(0),
        net.left(1),
        net.left(2),
        net.left(3),
        net.left(4),
        net.left(5),
        net.left(6),
        net.left(7),
    ]
}

// Whether pushes of 2, 2, 1 and 1 find a path, where the arc from node 2 is forbidden before the last.
fn pushes<L: Ledger>(net: &mut Net, blank: Blank) -> [bool; 4]
    requires name { blank.name ≡ L.name }
    requires parts { blank.parts ≡ L.parts }
    requires some { 0 < blank.parts }
    requires nodes { net.old.nodes ≡ 4 }
    requires arcs { length net.old.arcs ≡ 8 }
    ensures nodes { net.new.nodes ≡ 4 }
    ensures arcs { length net.new.arcs ≡ 8 }
{
    let mut steps = Steps::<L>::new(blank);
    let first = augment(net, 2, &mut steps);
    let second = augment(net, 2, &mut steps);
    net.allow(6, false);
    let third = augment(net, 1, &mut steps);
    net.allow(6, true);
    let fourth = augment(net, 1, &mut steps);
    [first, second, third, fourth]
}

// Which pushes find a path, and what is left after them. At last a path leads to node 3, and none is stored.
fn pushed(alloc: Global) -> Option<([bool; 4], [u128; 8])> {
    let mut net = diamond(alloc).ok()?;
    let found = pushes::<Brand>(&mut net, Blank::new(1));
    let left = lefts(&net);
    (net.path().is_empty() && net.reached(3)).then_some((found, left))
}

#[test]
fn two_paths_of_a_diamond(rt: HostRuntime) {
    let wanted = ([true, false, false, true], [1, 2, 0, 2, 0, 1, 3, 1]);
    assert!(rt; pushed(rt.alloc()) == Some(wanted));
}
