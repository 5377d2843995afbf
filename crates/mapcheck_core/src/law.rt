//! The law of maps in the classic edition.
ghost use Rattle.mapcheck_core.specs.MapEditions.{ClassicMapsHaveEachName};

/// In versions 1 and 2 a line of a map may have any name that isn't reserved. No word there has `-`,
/// so the edition rejects no such name.
pub fn classic_maps_have_each_name()
    ensures { ClassicMapsHaveEachName }
{}
