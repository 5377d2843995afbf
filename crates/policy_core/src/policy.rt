//! An accepted policy, and the properties of its nodes and classes.
ghost use Rattle.std.specs.Prelude.{◌≡◌, ◌<◌, ◌≤◌, ◌++◌, ◌∷◌, [], ◌↔◌, map, length, IsTrue};
ghost use Rattle.std.specs.List.{AllByRecursion};
ghost use Rattle.tree_defs.specs.Tree.{depth as levels, nodes, IsAddressOf, LeadsToLeaf, most_levels, most_nodes};
ghost use Rattle.tree_defs.specs.Topology.{topology_of, IsBranched};
ghost use Rattle.tree_core.specs.Shape.{topology};
ghost use Rattle.policy_defs.specs.Accepted.{IsAccepted};
ghost use Rattle.policy_defs.specs.BuiltIn.{AreBuiltIn};
ghost use Rattle.text_core.specs.Tokens.{most_name};
ghost use Rattle.policy_defs.specs.Numbers.{number_at};
ghost use Rattle.policy_core.specs.Numbering.{address_at, HasAt};
ghost use Rattle.policy_core.specs.Parts.{resolved, told, class_in, AreNumbered, HavePolicyNodes, HavePrograms, HaveLeaves, HasCatchAll, policy_node_at};
ghost use Rattle.tree_graph.specs.Row.{row_at};
ghost use Rattle.policy_rules.specs.Clauses.{most_classes};

use crate::parts::{Class, Marks, PolicyNode};
use list_core::List;
use policy_defs::{Limits, NodeNames};
use range_core::Checked;
use rank_defs::FlowGroup;
use std::marker::Model;
use tree_core::Topo;
use tree_graph::Preorder;

/// An accepted policy. Its nodes and leaves are numbered in preorder from the root, which is 0.
#[derive(Drop)]
pub struct Policy {
    version: u32,
    tree: Preorder,
    policy_nodes: List<PolicyNode>,
    programs: List<Checked>,
    classes: List<Class>,
}

impl Model for Policy {
    ghost use Rattle.policy_rules.specs.Resolved.{Resolved};
    ghost use Rattle.policy_core.specs.Codes.{resolved_code};
    ghost use Rattle.policy_core.specs.Parts.{resolved, IsWhole};

    ghost Value = { Resolved };

    ghost coded = { resolved_code };

    ghost view = { λ p. resolved p.version p.tree p.policy_nodes p.programs p.classes };

    ghost invariant = { λ p. IsWhole p.version p.tree p.policy_nodes p.programs p.classes };
}

impl Policy {
    /// Builds a policy of this version from its parts. Each node of the tree is the index of its
    /// record, and each record has the index of its transaction.
    pub fn new(
        version: u32,
        tree: Preorder,
        policy_nodes: List<PolicyNode>,
        programs: List<Checked>,
        classes: List<Class>,
    ) -> Policy
        requires numbered { AreNumbered tree }
        requires few_nodes { length tree.rows ≤ most_nodes }
        requires policy_nodes { HavePolicyNodes tree policy_nodes }
        requires programs { HavePrograms policy_nodes programs }
        requires leaves { HaveLeaves tree classes }
        requires few { length classes ≤ most_classes }
        requires catch_all { HasCatchAll (map (λ c. c.conditions) classes) }
        requires accepted { IsAccepted
            (resolved version tree policy_nodes programs classes).policy }
        requires built_in { AreBuiltIn
            (resolved version tree policy_nodes programs classes).policy }
        ensures policy { result ≡ resolved version tree policy_nodes programs classes }
    {
        Policy {
            version,
            tree,
            policy_nodes,
            programs,
            classes,
        }
    }

    /// Returns the version that the policy's first line gives.
    pub fn version(&self) -> u32
        ensures version { result ≡ self.now.policy.version }
    {
        self.version
    }

    /// Returns the shape of the tree.
    pub fn topo(&self) -> &Topo
        ensures topology { topology result.now ≡ topology_of self.now.policy.tree }
        ensures branched { IsBranched (topology_of self.now.policy.tree) }
        ensures few { nodes (topology_of self.now.policy.tree) ≤ most_nodes }
        ensures levels { levels (topology_of self.now.policy.tree) ≤ most_levels }
        ensures accepted { IsAccepted self.now.policy }
    {
        self.tree.topo()
    }

    /// Returns the number of levels below the root.
    pub fn depth(&self) -> u32
        ensures levels { result ≡ levels self.now.policy.tree }
        ensures limit { result ≤ most_levels }
        ensures accepted { IsAccepted self.now.policy }
    {
        self.tree.depth()
    }

    /// Returns the number of nodes and leaves.
    pub fn count(&self) -> u32
        ensures count { result ≡ nodes self.now.policy.tree }
        ensures limit { result ≤ most_nodes }
    {
        self.tree.count()
    }

    /// Returns the name of a node or leaf.
    pub fn name(&self, node: u32) -> &str
        requires there { node < nodes self.now.policy.tree }
        ensures name { HasAt self.now.policy.tree node (λ n. result.now ≡ n.name) }
        ensures short { length result.now ≤ most_name }
    {
        policy_node_of(&self.tree, self.policy_nodes.as_slice(), node)
            .name
            .as_str()
    }

    /// Returns the digits of the path from the root to a node or leaf.
    pub fn address(&self, node: u32) -> &[u32]
        requires there { node < nodes self.now.policy.tree }
        ensures address { result.now ≡ address_at self.now.policy.tree node }
    {
        self.tree.address(node)
    }

    pub fn is_leaf(&self, node: u32) -> bool
        requires there { node < nodes self.now.policy.tree }
        ensures leaf { IsTrue result ↔ LeadsToLeaf self.now.policy.tree
            (address_at self.now.policy.tree node) }
    {
        self.tree.is_leaf(node)
    }

    /// Returns the number of a node's child at a digit.
    pub fn child(&self, node: u32, digit: u32) -> u32
        requires there { node < nodes self.now.policy.tree }
        requires child { IsAddressOf self.now.policy.tree (address_at self.now.policy.tree node ++
            digit ∷ []) }
        ensures child { result ≡ number_at self.now.policy.tree
            (address_at self.now.policy.tree node ++ digit ∷ []) }
        ensures address { address_at self.now.policy.tree result ≡
            address_at self.now.policy.tree node ++ digit ∷ [] }
        ensures within { result < nodes self.now.policy.tree }
    {
        self.tree.child(node, digit)
    }

    /// Returns the transaction of a node or leaf.
    pub fn checked(&self, node: u32) -> &Checked
        requires there { node < nodes self.now.policy.tree }
        ensures program { HasAt self.now.policy.tree node (λ n. result.now ≡ n.program) }
    {
        let policy_node = policy_node_of(&self.tree, self.policy_nodes.as_slice(), node);
        &self.programs.as_slice()[policy_node.program]
    }

    /// Returns the marks of a node or leaf.
    pub fn attrs(&self, node: u32) -> Marks
        requires there { node < nodes self.now.policy.tree }
        ensures marks { HasAt self.now.policy.tree node (λ n. told result ≡ n.marks) }
    {
        policy_node_of(&self.tree, self.policy_nodes.as_slice(), node).marks
    }

    /// Returns the limits of a node or leaf.
    pub fn limits(&self, node: u32) -> Limits
        requires there { node < nodes self.now.policy.tree }
        ensures limits { HasAt self.now.policy.tree node (λ n. result ≡ n.limits) }
    {
        policy_node_of(&self.tree, self.policy_nodes.as_slice(), node).limits
    }

    /// Returns the fields by which a node or leaf tells flows apart.
    pub fn group(&self, node: u32) -> FlowGroup
        requires there { node < nodes self.now.policy.tree }
        ensures group { HasAt self.now.policy.tree node (λ n. result ≡ n.group) }
    {
        policy_node_of(&self.tree, self.policy_nodes.as_slice(), node).group
    }

    /// Returns the name of a node's or leaf's transaction, as written.
    pub fn using(&self, node: u32) -> &str
        requires there { node < nodes self.now.policy.tree }
        ensures using { HasAt self.now.policy.tree node (λ n. result.now ≡ n.using) }
        ensures built_in { AreBuiltIn self.now.policy }
    {
        policy_node_of(&self.tree, self.policy_nodes.as_slice(), node)
            .using
            .as_str()
    }

    /// Returns the classes in the order in which they are tried, each with the number of its leaf.
    pub fn classes(&self) -> &[Class]
        ensures classes { map (class_in self.now.policy.tree) result.now ≡ self.now.policy.classes }
        ensures conditions { map (λ c. c.conditions) result.now ≡ self.now.conditions }
        ensures leaves { AllByRecursion (λ c. c.leaf < nodes self.now.policy.tree) result.now }
        ensures few { length result.now ≤ most_classes }
        ensures catch_all { HasCatchAll self.now.conditions }
        ensures accepted { IsAccepted self.now.policy }
    {
        self.classes.as_slice()
    }
}

impl NodeNames for Policy {
    ghost policy = { λ p. p.policy };

    fn name(&self, node: u32) -> &str {
        self.name(node)
    }
}

/// Returns the record of a node of the tree.
fn policy_node_of<'a>(tree: &Preorder, policy_nodes: &'a [PolicyNode], node: u32) -> &'a PolicyNode
    requires there { node < length tree.now.rows }
    requires policy_nodes { HavePolicyNodes tree.now policy_nodes.now }
    ensures { result.now ≡ policy_node_at policy_nodes.entry.now (row_at tree.now.rows node).node }
{
    &policy_nodes[tree.node(node) as usize]
}
