//! Laws about the levels of a target.
ghost use Rattle.embed_defs.specs.TargetLaws.{HeightsGiveTheLowestLevels, AllLevelsAreTheTarget, HeightsAreInRange};

/// Counted from the leaves, a target's arities are those of its lowest levels, followed by those of
/// the further levels above.
pub fn heights_give_the_lowest_levels()
    ensures { HeightsGiveTheLowestLevels }
{}

/// The N lowest levels of a target with N levels are the whole target.
pub fn all_levels_are_the_target()
    ensures { AllLevelsAreTheTarget }
{}

/// The nodes of each height of a target have 2 to 64 children.
pub fn heights_are_in_range()
    ensures { HeightsAreInRange }
{}
