//! The law of classic conditions.
ghost use Rattle.packet_defs.specs.ClassicTests.{ClassicClassesAreKept};

/// A packet's class by the conditions of versions 1 and 2 is its class by the same conditions as
/// tests.
pub fn classic_classes_are_kept()
    ensures { ClassicClassesAreKept }
{}
