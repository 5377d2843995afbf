//! The trait for the names of nodes and leaves.
ghost use Rattle.std.specs.Prelude.{◌<◌};
ghost use Rattle.tree_defs.specs.Tree.{nodes};
ghost use Rattle.policy_defs.specs.Policy.{Policy};
ghost use Rattle.policy_defs.specs.Numbers.{IsNameOf};

/// Gives the names of a policy's nodes and leaves.
pub trait NodeNames {
    ghost policy: { Self → Policy };

    /// Returns the name of the node or leaf with this number. Numbers count in preorder from the
    /// root, which is 0.
    fn name(&self, node: u32) -> &str
        requires node { node < nodes (policy self.now).tree }
        ensures name { IsNameOf (policy self.now) node result.now };
}
