//! The laws of written captures.
ghost use Rattle.pcap_core.specs.Laws.{AreCaptures, AreReadBack, MomentsAreKept, RecordsFollow};

/// States that written records are read back as a whole capture of these records and no others.
pub fn a_written_capture_is_read_back()
    ensures captures { AreCaptures }
    ensures reading { AreReadBack }
{}

/// States that a timestamp in nanoseconds, written as seconds and nanoseconds, is read back
/// unchanged.
pub fn a_written_moment_is_read_back()
    ensures { MomentsAreKept }
{}

/// States that the bytes of records in a row are those of the first ones, and then those of the
/// others.
pub fn bytes_of_more_records_follow()
    ensures { RecordsFollow }
{}
