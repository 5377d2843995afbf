//! The state of reading a tree that is written with parentheses.
ghost use Rattle.std.specs.Prelude.{◌≡◌, ◌+◌, ◌<◌, ◌≤◌, ◌^◌, ℕ};
ghost use Rattle.text_core.specs.Glyphs.{glyph_of, glyphs_of};
ghost use Rattle.mapcheck_core.specs.TreeReading.{step, no_node, may_begin, measured};

use text_core::{Item, Mark};

/// Holds the number of open parentheses, whether a tree has been read since the last of them was
/// opened, and the number of nodes and levels so far.
#[derive(Clone, Copy, Debug)]
pub(crate) struct Nest {
    pub unclosed: usize,
    pub filled: bool,
    pub nodes: usize,
    pub levels: usize,
}

impl Nest {
    /// Says whether a tree may begin: below an open node, or if none has been read yet.
    fn may_begin(self) -> bool
        ensures { result ≡ may_begin self }
    {
        self.unclosed > 0 || !self.filled
    }

    /// Reads one more word or mark.
    fn step(self, item: &Item<'_>) -> Option<Nest>
        requires unclosed { self.unclosed + 1 < 2 ^ 64 }
        requires nodes { self.nodes + 1 < 2 ^ 64 }
        ensures { result ≡ step self (glyph_of item.now) }
    {
        match item {
            Item::Word(b"leaf") if self.may_begin() => Some(Nest {
                filled: true,
                nodes: self.nodes + 1,
                levels: self.levels.max(self.unclosed),
                ..self
            }),
            Item::Mark(Mark::Open) if self.may_begin() => Some(Nest {
                unclosed: self.unclosed + 1,
                filled: false,
                nodes: self.nodes + 1,
                ..self
            }),
            Item::Mark(Mark::Close) if self.unclosed > 0 && self.filled => Some(Nest {
                unclosed: self.unclosed - 1,
                filled: true,
                ..self
            }),
            _ => None,
        }
    }
}

/// Counts the nodes and levels of the tree that the items write. Returns `None` if they don't write
/// a tree.
pub(crate) fn measured(items: &[Item<'_>]) -> Option<Nest>
    ensures { result ≡ measured (glyphs_of items.now) }
{
    let mut nest = Nest {
        unclosed: 0,
        filled: false,
        nodes: 0,
        levels: 0,
    };
    for item in items {
        nest = nest.step(item)?;
    }
    if nest.unclosed == 0 && nest.filled {
        Some(nest)
    } else {
        None
    }
}
