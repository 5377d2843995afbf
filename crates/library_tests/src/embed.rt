//! A test that lifts paths along the canonical map, and picks them back.
ghost use Rattle.std.specs.Prelude.{◌≡◌, ◌+◌, ◌≤◌, length, IfOk};
ghost use Rattle.tree_defs.specs.Tree.{depth, LeadsToLeaf, SameShape};
ghost use Rattle.embed_defs.specs.Target.{IsInRange};
ghost use Rattle.tree_core.specs.Shape.{topology};
ghost use Rattle.tree_core.specs.Paths.{digits as digits_on, digits_of};
ghost use Rattle.embed_defs.specs.GoodMaps.{IsGoodMap};
ghost use Rattle.library_tests.specs.Trees.{pair, leaf_beside_a_pair};

use embed_core::{Map, Target, embed, lift, pick};
use list_core::List;
use std::alloc::{AllocError, Global};
use std::test::Fail;
use tree_core::{Path, Taken, Topo};

/// Returns the binary tree of height 3.
fn binary(alloc: Global) -> Result<Target, AllocError>
    ensures range { IfOk result (λ t. IsInRange t.arities t.above) }
    ensures three { IfOk result (λ t. length t.arities ≡ 3) }
{
    Ok(Target {
        arities: List::from_vec(vec![in alloc; 2; 3]?),
        above: 2,
    })
}

fn two_leaves(alloc: Global) -> Result<Topo, AllocError>
    ensures { IfOk result (λ t. topology t ≡ pair) }
{
    Ok(Topo::inner(vec![in alloc; Topo::leaf(), Topo::leaf()]?))
}

/// Returns a root with a leaf and a node with two leaves.
fn leaf_beside_a_pair(alloc: Global) -> Result<Topo, AllocError>
    ensures { IfOk result (λ t. topology t ≡ leaf_beside_a_pair) }
{
    let pair = two_leaves(alloc)?;
    Ok(Topo::inner(vec![in alloc; Topo::leaf(), pair]?))
}

fn path(alloc: Global, steps: &[(u32, u64)], last: u64) -> Result<Path, AllocError>
    ensures digits { IfOk result (λ p. digits_on p ≡ digits_of steps.now) }
{
    Ok(Path {
        steps: List::from_vec(steps.to_vec(alloc)?),
        last,
    })
}

/// Returns whether a path is lifted to these digits and ranks. `taken` gets the path that is picked
/// back from them.
fn goes_to(
    alloc: Global,
    topo: &Topo,
    map: &Map,
    path: &Path,
    digits: &[u32],
    ranks: &[u64],
    taken: &mut Taken,
) -> Result<bool, AllocError>
    requires good { IsGoodMap (length digits.now) map.now }
    requires shape { SameShape (topology topo.now) map.now }
    requires leaf { LeadsToLeaf (topology topo.now) (digits_on path.now) }
    requires ranks { length ranks.now ≡ length digits.now + 1 }
    requires room { depth (topology topo.now) ≤ taken.old.room }
{
    let mut image = vec![in alloc; 0; digits.len()]?;
    let mut lifted = vec![in alloc; 0; ranks.len()]?;
    lift(map, path, &mut image, &mut lifted);
    pick(map, &image, &lifted, taken);
    Ok(image.as_slice() == digits && lifted.as_slice() == ranks)
}

#[test]
fn paths_go_there_and_back(rt: HostRuntime) -> Result<(), Fail> {
    let alloc = rt.alloc();
    let topo = leaf_beside_a_pair(alloc)?;
    let target = binary(alloc)?;
    let map = embed(alloc, &topo, &target)?;
    let mut taken = Taken::new(alloc, 2)?;
    let path = path(alloc, &[(1, 5), (1, 7)], 9)?;
    assert!(rt;
        goes_to(
            alloc,
            &topo,
            &map,
            &path,
            &[0, 0, 1],
            &[5, 5, 7, 9],
            &mut taken
        )?
    );
    assert_eq!(rt;
        (taken.digits(), taken.ranks()),
        (&[1, 1][..], &[5, 7, 9][..])
    );
    Ok(())
}

/// Returns whether a path recorded in `taken` is lifted to these digits and ranks.
fn lifts_to(
    alloc: Global,
    topo: &Topo,
    map: &Map,
    taken: &Taken,
    digits: &[u32],
    ranks: &[u64],
) -> Result<bool, AllocError>
    requires good { IsGoodMap (length digits.now) map.now }
    requires shape { SameShape (topology topo.now) map.now }
    requires leaf { LeadsToLeaf (topology topo.now) taken.now.digits }
    requires whole { length taken.now.ranks ≡ length taken.now.digits + 1 }
    requires ranks { length ranks.now ≡ length digits.now + 1 }
{
    let mut image = vec![in alloc; 0; digits.len()]?;
    let mut lifted = vec![in alloc; 0; ranks.len()]?;
    lift(map, taken, &mut image, &mut lifted);
    Ok(image.as_slice() == digits && lifted.as_slice() == ranks)
}

#[test]
fn what_was_taken_is_lifted_as_its_path_is(rt: HostRuntime) -> Result<(), Fail> {
    let alloc = rt.alloc();
    let topo = leaf_beside_a_pair(alloc)?;
    let target = binary(alloc)?;
    let map = embed(alloc, &topo, &target)?;
    let mut taken = Taken::new(alloc, 2)?;
    taken.step(1, 5);
    taken.step(1, 7);
    taken.last(9);
    assert!(rt; lifts_to(alloc, &topo, &map, &taken, &[0, 0, 1], &[5, 5, 7, 9])?);
    Ok(())
}
