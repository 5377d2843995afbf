//! The number of leaves of a target.
ghost use Rattle.std.specs.Prelude.{◌≤◌, ◌↔◌, IsTrue};
ghost use Rattle.std.specs.List.{AllByRecursion};
ghost use Rattle.embed_defs.specs.Target.{IsArity, leaves, most_leaves};

/// The greatest number of leaves of a target.
const MOST_LEAVES: u32 = 65_536;

/// Says whether the complete tree of these arities has at most 65,536 leaves.
pub fn has_few_leaves(arities: &[u32]) -> bool
    requires { AllByRecursion IsArity arities.now }
    ensures { IsTrue result ↔ (leaves arities.now ≤ most_leaves) }
{
    let mut count = 1;
    for arity in arities {
        count *= *arity;
        if count > MOST_LEAVES {
            return false;
        }
    }
    true
}
