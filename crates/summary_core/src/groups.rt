//! The groups of a summary.
ghost use Rattle.std.specs.Prelude.{◌≡◌, IfOk};
ghost use Rattle.summary_core.specs.Figures.{AreGroups, HasGroups};
ghost use Rattle.summary_core.specs.Ranks.{AreSorted};

use crate::fairness::fairness_of;
use crate::group::{Group, Groups, Label};
use crate::part::{Kind, Part};
use crate::summary::Summary;
use list_core::Name;
use std::alloc::{AllocError, Global};

fn copied(alloc: Global, label: &Label) -> Result<Label, AllocError>
    ensures { IfOk result (λ l. l ≡ label.now) }
{
    Ok(Label {
        name: Name::new(alloc, label.name.as_str())?,
        weight: label.weight,
    })
}

/// Returns the groups of one kind with these labels.
fn labelled(
    alloc: Global,
    summary: &Summary,
    kind: Kind,
    labels: &[Label],
) -> Result<Vec<Group>, AllocError>
    requires { AreSorted summary.now.delays.items }
    ensures { IfOk result (λ gs. AreGroups summary.now kind labels.now gs.items) }
{
    let mut groups = Vec::new(alloc);
    for index in 0..labels.len() {
        let label = copied(alloc, &labels[index])?;
        let figures = summary.figures(alloc, kind.part(index))?;
        groups.push(Group { label, figures })?;
    }
    Ok(groups)
}

/// Returns the groups of a summary with these labels.
fn all_groups(
    alloc: Global,
    summary: &Summary,
    leaves: &[Label],
    classes: &[Label],
) -> Result<Groups, AllocError>
    requires { AreSorted summary.now.delays.items }
    ensures { IfOk result (λ gs. HasGroups summary.now leaves.now classes.now gs) }
{
    let all = summary.figures(alloc, Part::Whole)?;
    let leaves = labelled(alloc, summary, Kind::Leaf, leaves)?;
    let classes = labelled(alloc, summary, Kind::Class, classes)?;
    let fairness = fairness_of(&leaves);
    Ok(Groups {
        all,
        leaves,
        classes,
        fairness,
    })
}

/// Sorts the delays of each class, and returns the groups of the summary. The labels are in the
/// order of the indices of the leaves and of the classes. No list of delays is copied. The error is
/// out of memory.
pub fn groups_of(
    alloc: Global,
    summary: &mut Summary,
    leaves: &[Label],
    classes: &[Label],
) -> Result<Groups, AllocError>
    ensures { IfOk result (λ gs. HasGroups summary.old leaves.now classes.now gs) }
{
    summary.sort_delays();
    all_groups(alloc, summary, leaves, classes)
}
