//! A test of the counts of a queue of rank stores.
use block_core::BlockPifo;
use pifo_core::Pifo;
use std::test::Fail;

#[test]
fn the_counts_are_of_pushes_and_of_queued_pairs(rt: HostRuntime) -> Result<(), Fail> {
    let mut queue = BlockPifo::new(rt.alloc(), 3)?;
    queue.reserve(2)?;
    queue.push(2, 2);
    queue.push(1, 2);
    assert_eq!(rt; queue.pop(), Some((1, 2)));
    assert_eq!(rt; (queue.pushed(), queue.len()), (2, 1));
    Ok(())
}
