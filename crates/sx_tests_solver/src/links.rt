ghost use Rattle.std.specs.Prelude.{◌≡◌, ◌<◌, [], ◌∷◌, length, map, IfOk};
ghost use Rattle.sx_links.specs.Lists.{list_at};

use std::alloc::Global;
use std::test::Fail;
use sx_bytes::NoMemory;
use sx_links::*;

// Puts p, q and r into the first of two lists.
fn push_three(links: &mut Links<char>) -> (u32, u32, u32)
    requires { links.old ≡ record { lists = [] ∷ [] ∷ []; spare = 3 } }
    ensures { links.new ≡ record {
      lists = ((result.0, 112) ∷ (result.1, 113) ∷ (result.2, 114) ∷ []) ∷ [] ∷ [];
      spare = 0;
    } }
{
    let p = links.push_after(0, None, 'p');
    let r = links.push_after(0, Some(p), 'r');
    let q = links.push_after(0, Some(p), 'q');
    (p, q, r)
}

// The values of a list, from the front on.
fn values(alloc: Global, links: &Links<char>, list: u32) -> Result<Vec<char>, NoMemory>
    requires { list < length links.now.lists }
    ensures { IfOk result (λ v. v.items ≡ map (λ x. x.1) (list_at links.now.lists list)) }
{
    let mut values = Vec::new(alloc);
    let mut at = links.first(list);
    while let Some(node) = at {
        values.push(*links.value(node))?;
        at = links.next(node);
    }
    Ok(values)
}

#[test]
fn a_node_leaves_its_list(rt: HostRuntime) -> Result<(), Fail> {
    let mut links = Links::new(rt.alloc(), 2)?;
    links.reserve(3)?;
    let (_p, q, _r) = push_three(&mut links);
    assert_eq!(rt; links.spare(), 0);
    assert_eq!(rt; links.unlink(q), 'q');
    assert_eq!(rt; links.spare(), 1);
    assert_eq!(rt; links.list_count(), 2);
    let first = values(rt.alloc(), &links, 0)?;
    assert_eq!(rt; first.as_slice(), ['p', 'r'].as_slice());
    let second = values(rt.alloc(), &links, 1)?;
    assert_eq!(rt; second.len(), 0);
    Ok(())
}
