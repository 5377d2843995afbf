//! Test of the sorted queue, next to the heap that programs use.
ghost use Rattle.std.specs.Prelude.{◌≡◌};

use pifo_core::{HeapPifo, Pifo, SortedPifo};
use std::alloc::AllocError;
use std::test::Fail;

/// Returns the four pops of a new queue after three pushes, two of which tie.
fn departures<P: Pifo>(queue: &mut P) -> Result<[Option<(u64, u64)>; 4], AllocError>
    requires new { P.pushes queue.old ≡ 0 }
{
    queue.reserve(3)?;
    queue.push(5, 1);
    queue.push(3, 2);
    queue.push(3, 7);
    Ok([queue.pop(), queue.pop(), queue.pop(), queue.pop()])
}

#[test]
fn ties_depart_in_the_order_of_their_arrival(rt: HostRuntime) -> Result<(), Fail> {
    let in_order = [Some((3, 2)), Some((3, 7)), Some((5, 1)), None];
    let mut sorted = SortedPifo::new(rt.alloc());
    assert_eq!(rt; departures(&mut sorted)?, in_order);
    assert_eq!(rt; (sorted.len(), sorted.pushed()), (0, 3));
    let mut heap = HeapPifo::new(rt.alloc());
    assert_eq!(rt; departures(&mut heap)?, in_order);
    assert_eq!(rt; (heap.len(), heap.pushed()), (0, 3));
    Ok(())
}
