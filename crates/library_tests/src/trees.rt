//! Test of a push along a path.
use list_core::List;
use std::test::Fail;
use tree_core::{Path, SourceTree, Taken, Topo};

#[test]
fn a_packet_pushed_along_a_path_departs(rt: HostRuntime) -> Result<(), Fail> {
    let alloc = rt.alloc();
    let topo = Topo::inner(vec![in alloc; Topo::leaf()]?);
    let mut tree = SourceTree::new(alloc, &topo)?;
    let mut taken = Taken::new(alloc, 1)?;
    tree.reserve(&[0])?;
    let steps = List::from_vec(vec![in alloc; (0, 60)]?);
    tree.push(&Path { steps, last: 1940 }, 2);
    let packet = tree.pop(&mut taken);
    assert_eq!(rt; (packet, taken.room()), (Some(2), 1));
    assert_eq!(rt;
        (taken.digits(), taken.ranks()),
        ([0].as_slice(), [60, 1940].as_slice())
    );
    Ok(())
}
