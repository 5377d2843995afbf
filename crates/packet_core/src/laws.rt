//! The law of classic policies.
ghost use Rattle.packet_core.specs.Laws.{ClassicClassesAreKept};

/// A policy of version 1 or 2 gives each packet the first class of which it meets all conditions.
pub fn classic_classes_are_kept()
    ensures { ClassicClassesAreKept }
{}
