//! Laws of push-in first-out queues.
ghost use Rattle.tree_defs.specs.QueueLaws.{EarliestOfTheLeastLeaves, NothingLeavesAnEmptyQueue};

/// A dequeue takes the pair that arrived first among those of the least rank. The others stay in
/// order.
pub fn earliest_of_the_least_leaves()
    ensures { EarliestOfTheLeastLeaves }
{}

/// A dequeue returns nothing exactly if the queue is empty.
pub fn nothing_leaves_an_empty_queue()
    ensures { NothingLeavesAnEmptyQueue }
{}
