//! Laws of equal captures in both formats, and of written departures that are read back.
ghost use Rattle.sched_capture.specs.Laws.{AlikeFilesHaveEqualAnswers, ForwardsAreReadBack};

/// A classic and a pcapng file without faults have equal reports if their packets are equal.
pub fn alike_files_have_equal_answers()
    ensures law { AlikeFilesHaveEqualAnswers }
{}

/// The departures that `forward` writes of a file are read back packet by packet. This also holds
/// if the run ends at a fault of the file, at another link type or at a late start.
pub fn forwards_are_read_back()
    ensures law { ForwardsAreReadBack }
{}
