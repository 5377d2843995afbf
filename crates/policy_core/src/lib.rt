//! A policy that can be run: a tree of numbered nodes, each with its transaction, and classes of
//! packets, each with its leaf. Also builds the policy from its statements. Begin with
//! specs/Parts.antt.
#![tactic(auto)]

mod classes;
mod family_laws;
mod faults;
mod graphs;
mod homes;
mod laws;
mod nodes;
mod numbers;
mod office;
mod parts;
mod place_laws;
mod policy;
mod resolution;
mod tests;
mod text_laws;

pub use family_laws::{families_are_forests, families_are_shallow};
pub use faults::check_family;
pub use graphs::{graph, number};
pub use homes::leaves;
pub use laws::{
    addresses_undo_numbers, numbers_undo_addresses, offices_are_alike, rows_tell_the_tree,
    the_office_is_accepted,
};
pub use numbers::places;
pub use parts::{Class, Marks, PolicyNode};
pub use place_laws::{
    graphs_give_the_tree, homes_give_the_classes, resolved_policies_are_accepted,
};
pub use policy::Policy;
pub use policy_rules::PolicyFault;
pub use resolution::resolve;
pub use text_laws::{
    faultless_are_accepted, policy_texts_have_an_answer, statements_give_a_policy,
    statements_give_one_policy, texts_have_sound_entries,
};
