//! Scheduling transactions (Sivaraman et al., SIGCOMM 2016): small programs that rank packets.

use crate::expression::Expr;
use list_core::List;

/// The greatest rank, timestamp (in nanoseconds) and variable value: 2^62 - 1.
pub const MAX_RANK: u64 = 4_611_686_018_427_387_903;

/// The range of a variable, ends included, and its first value.
#[derive(Clone, Copy, PartialEq, Eq, Debug)]
pub struct Span {
    pub low: u64,
    pub high: u64,
    pub first: u64,
}

/// The target of an assignment: the rank, a variable of the node, or one of the child or flow.
#[derive(Clone, Copy, PartialEq, Eq, Debug)]
pub enum Aim {
    Rank,
    Keep(u32),
    Each(u32),
}

/// One assignment, with its line number in the policy text. Built-in assignments have line 0.
#[derive(Drop)]
pub struct Assign {
    pub line: u32,
    pub aim: Aim,
    pub value: Expr,
}

/// The variables of a node, and the assignments that it runs at each push and pop.
#[derive(Drop)]
pub struct Transaction {
    /// The variables that the node has once, in the order of their declarations.
    pub keeps: List<Span>,
    /// The variables that each child (at an inner node) or each flow (at a leaf) has, in the order
    /// of their declarations.
    pub eaches: List<Span>,
    pub push: List<Assign>,
    pub pop: List<Assign>,
}
