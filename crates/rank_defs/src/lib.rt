//! Scheduling transactions: their types, and the definitions of their steps. Begin with
//! specs/Programs.antt.
#![tactic(auto)]

mod environment;
mod expression;
mod flow_group;
mod laws;
mod range;
mod transaction;

pub use environment::{Env, FlowKey, MAX_PRIO, MAX_SLACK, MAX_WEIGHT, Who};
pub use expression::{Expr, MAX_DEPTH, Op, Var};
pub use flow_group::FlowGroup;
pub use laws::{
    builtins_are_checked, checked_steps_are_safe, checks_find_all_faults, safe_parts_are_inside,
    steps_change_one,
};
pub use range::Range;
pub use transaction::{Aim, Assign, MAX_RANK, Span, Transaction};
