//! Which packets of a run belong together.
/// A part of a run's packets.
#[derive(Clone, Copy, PartialEq, Eq, Debug)]
pub enum Part {
    /// All packets.
    Whole,
    /// The packets of the leaf with this index.
    Leaf(usize),
    /// The packets of this class.
    Class(usize),
}

impl Part {
    ghost use Rattle.std.specs.Prelude.{◌≡◌};
    ghost use Rattle.summary_core.specs.Parts.{is_in};

    /// Returns whether the packets of a class belong to the part. The table gives the index of each
    /// class's leaf.
    pub(crate) fn has(self, table: &[u32], class: usize) -> bool
        ensures { result ≡ is_in table.now self class }
    {
        match self {
            Part::Whole => true,
            Part::Leaf(leaf) => match table.get(class) {
                Some(own) => leaf == *own as usize,
                None => false,
            },
            Part::Class(own) => own == class,
        }
    }
}

/// The kind of a group that has a name.
#[derive(Clone, Copy, PartialEq, Eq, Debug)]
pub(crate) enum Kind {
    Leaf,
    Class,
}

impl Kind {
    ghost use Rattle.std.specs.Prelude.{◌≡◌};
    ghost use Rattle.summary_core.specs.Parts.{part_at};

    pub(crate) fn part(self, index: usize) -> Part
        ensures { result ≡ part_at self index }
    {
        match self {
            Kind::Leaf => Part::Leaf(index),
            Kind::Class => Part::Class(index),
        }
    }
}
