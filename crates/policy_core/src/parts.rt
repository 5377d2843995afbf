//! The parts of a policy.
use list_core::{List, Name};
use policy_defs::Limits;
use policy_text_defs::Test;
use rank_defs::FlowGroup;

/// The values that steps can read of a node or a class: the priority, the weight, and the slack in
/// nanoseconds.
#[derive(Clone, Copy, PartialEq, Eq, Debug)]
pub struct Marks {
    pub prio: u32,
    pub weight: u32,
    pub slack: u64,
}

/// A node or a leaf: its name, the name of its transaction and its index among the checked ones,
/// its marks, its limits, and the fields by which it tells flows apart.
#[derive(Drop)]
pub struct PolicyNode {
    pub name: Name,
    pub using: Name,
    pub program: usize,
    pub marks: Marks,
    pub limits: Limits,
    pub group: FlowGroup,
}

/// A class of packets: its marks, its conditions, and the preorder number of the leaf that queues its
/// packets. The conditions are alternatives, each a list of tests. A packet belongs to the class if
/// it passes all tests of one of them, or if there are none.
#[derive(Drop)]
pub struct Class {
    pub marks: Marks,
    pub conditions: List<List<Test>>,
    pub leaf: u32,
}
