//! The laws of captures.
ghost use Rattle.pcap_defs.specs.Reading.{ReadsCaptures, ReadsRefusals, HasFaultOrRecord, MomentsAreSmall};

/// States that a file has one reading as a capture: the function that reads it agrees with the
/// grammar.
pub fn a_file_has_one_reading()
    ensures captures { ReadsCaptures }
    ensures refusals { ReadsRefusals }
{}

/// States that the bytes left after some records are empty, begin with a record, or have a fault.
pub fn a_rest_has_a_record_or_a_fault()
    ensures { HasFaultOrRecord }
{}

/// States that a timestamp in nanoseconds is below 2^62.
pub fn a_moment_has_62_bits()
    ensures { MomentsAreSmall }
{}
