//! Calm policies: no push of a calm policy spills, whatever packets arrive.
ghost use Rattle.std.specs.Prelude.{◌≡◌, ◌<◌, ◌≤◌, ◌↔◌, ◌++◌, ◌∷◌, [], ℕ, IsTrue};
ghost use Rattle.tree_defs.specs.Tree.{nodes, most_nodes, IsAddressOf};
ghost use Rattle.tree_core.specs.Shape.{topology};
ghost use Rattle.policy_defs.specs.Accepted.{IsAccepted};
ghost use Rattle.policy_defs.specs.BuiltIn.{AreBuiltIn};
ghost use Rattle.policy_core.specs.Numbering.{address_at};
ghost use Rattle.block_replay.specs.CalmPolicies.{is_calm, is_steady};
ghost use Rattle.block_replay.specs.Calm.{IsMapOf, NeverSpills, UsesSteadyAt, HasOwnDigit, HaveOwnDigits, digit_at};

use embed_core::Map;
use policy_core::Policy;
use tree_core::Topo;

/// Returns whether the built-in transaction of this name never ranks a packet of a child below an
/// earlier packet of that child.
fn is_steady(transaction: &str) -> bool
    ensures { result ≡ is_steady transaction.now }
{
    matches!(transaction, "fifo" | "strict" | "lstf" | "rr" | "stfq")
}

/// Returns whether a leaf serves first in first out, or whether an inner node uses a steady
/// transaction.
fn uses_steady(policy: &Policy, node: u32) -> bool
    requires there { node < nodes policy.now.policy.tree }
    ensures steady { IsTrue result ↔ UsesSteadyAt policy.now.policy.tree
        (address_at policy.now.policy.tree node) }
    ensures built_in { AreBuiltIn policy.now.policy }
{
    let transaction = policy.using(node);
    if policy.is_leaf(node) {
        transaction == "fifo"
    } else {
        is_steady(transaction)
    }
}

/// Returns the number of children of the node at an address, or 0 if there is no such node.
fn children_at(topo: &Topo, address: &[u32]) -> u32
    requires few { nodes (topology topo.now) ≤ most_nodes }
    ensures { (i : ℕ) → i < result ↔ IsAddressOf (topology topo.now) (address.now ++ i ∷ []) }
{
    match address {
        [] => match topo {
            Topo::Leaf => 0,
            Topo::Inner(children) => children.len() as u32,
        },
        [digit, deeper @ ..] => match topo {
            Topo::Leaf => 0,
            Topo::Inner(children) => match children.get(*digit as usize) {
                Some(child) => children_at(child, deeper),
                None => 0,
            },
        },
    }
}

/// Returns the digit of a child's image that follows the image of its parent.
fn digit_at(policy: &Policy, map: &Map, node: u32, index: u32) -> u32
    requires map { IsMapOf policy.now.policy.tree map.now }
    requires there { node < nodes policy.now.policy.tree }
    requires child { IsAddressOf policy.now.policy.tree (address_at policy.now.policy.tree node ++
        index ∷ []) }
    ensures { result ≡ digit_at map.now (address_at policy.now.policy.tree node) index }
{
    let child = policy.child(node, index);
    let Some(above) = map.image(policy.address(node)) else {
        unreachable!()
    };
    let Some(image) = map.image(policy.address(child)) else {
        unreachable!()
    };
    image[above.len()]
}

/// Returns whether no earlier child has the digit of this one.
fn has_own_digit(policy: &Policy, map: &Map, node: u32, index: u32) -> bool
    requires map { IsMapOf policy.now.policy.tree map.now }
    requires there { node < nodes policy.now.policy.tree }
    requires child { IsAddressOf policy.now.policy.tree (address_at policy.now.policy.tree node ++
        index ∷ []) }
    ensures { IsTrue result ↔ HasOwnDigit map.now (address_at policy.now.policy.tree node) index }
{
    let digit = digit_at(policy, map, node, index);
    for before in 0..index {
        if digit_at(policy, map, node, before) == digit {
            return false;
        }
    }
    true
}

/// Returns whether no two children of a node have the same digit.
fn have_own_digits(policy: &Policy, map: &Map, node: u32) -> bool
    requires map { IsMapOf policy.now.policy.tree map.now }
    requires there { node < nodes policy.now.policy.tree }
    ensures own { IsTrue result ↔ HaveOwnDigits map.now (address_at policy.now.policy.tree node) }
    ensures accepted { IsAccepted policy.now.policy }
{
    let count = children_at(policy.topo(), policy.address(node));
    for index in 0..count {
        if !has_own_digit(policy, map, node, index) {
            return false;
        }
    }
    true
}

/// Returns whether a policy, placed by a map, is calm: then none of its pushes spills. Each inner
/// node must rank each child's packets in order, each leaf must serve first in first out, and each
/// child must have its own digit after its parent's image. Allocates no memory.
pub fn calm(policy: &Policy, map: &Map) -> bool
    requires map { IsMapOf policy.now.policy.tree map.now }
    ensures value { result ≡ is_calm policy.now.policy.tree map.now }
    ensures law { IsTrue result → NeverSpills policy.now.policy map.now }
{
    for node in 0..policy.count() {
        if !uses_steady(policy, node) || !have_own_digits(policy, map, node) {
            return false;
        }
    }
    true
}
