//! The groups of a run's packets: all, those of each leaf, and those of each class.
use crate::counts::Counts;
use crate::delays::Delays;
use crate::fairness::Fairness;
use list_core::Name;

/// The sums of a group of packets, and the percentiles of its delays if it has any.
#[derive(Clone, Copy, PartialEq, Eq, Debug)]
pub struct Figures {
    pub counts: Counts,
    pub delays: Option<Delays>,
}

/// The name of a leaf or a class, and its weight.
#[derive(Drop)]
pub struct Label {
    pub name: Name,
    pub weight: u32,
}

/// The packets of a leaf or of a class.
#[derive(Drop)]
pub struct Group {
    pub label: Label,
    pub figures: Figures,
}

/// The groups of a run's packets, and Jain's index of fairness over the leaves. Leaves and classes
/// are in the order of their indices.
#[derive(Drop)]
pub struct Groups {
    pub all: Figures,
    pub leaves: Vec<Group>,
    pub classes: Vec<Group>,
    pub fairness: Fairness,
}
