//! Complete trees with an arity for each level.
ghost use Rattle.std.specs.Prelude.{◌≡◌, length};
ghost use Rattle.embed_defs.specs.Levels.{levels};

use list_core::List;

/// Holds the number of children of the nodes of each level, from the root down (2 to 64 each, at
/// most 16 levels and 65,536 leaves). `above` is the number of children at each level added above
/// the root.
#[derive(Drop)]
pub struct Target {
    pub arities: List<u32>,
    pub above: u32,
}

impl Target {
    /// Returns the number of levels below the root.
    pub fn height(&self) -> usize
        ensures { result ≡ length self.now.arities }
    {
        self.arities.len()
    }

    /// Returns the number of children of a node that is `height + 1` levels above the leaves.
    pub fn arity(&self, height: usize) -> u32
        ensures { result ≡ levels self.now.arities self.now.above height }
    {
        let arities = self.arities.as_slice();
        if height < arities.len() {
            arities[arities.len() - 1 - height]
        } else {
            self.above
        }
    }
}
