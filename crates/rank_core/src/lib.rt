//! Runs transactions step by step, and holds the variables of nodes and the built-in transactions.
//! Begin with specs/Node.antt.
#![tactic(auto)]

mod builtins;
mod evaluate;
mod flows;
mod form;
mod node;
mod step;

pub use builtins::builtin;
pub use flows::{OrderedKey, key_of};
pub use form::{Fair, Form, Kept, pop_form, push_form};
pub use node::{NodeState, pop_by_form, push_by_form, run_pop, run_push};
pub use rank_defs::{
    Aim, Assign, Env, Expr, FlowKey, MAX_DEPTH, MAX_PRIO, MAX_RANK, MAX_SLACK, MAX_WEIGHT, Op,
    Span, Transaction, Var, Who,
};
