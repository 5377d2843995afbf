//! The laws of pcapng captures.
ghost use Rattle.pcapng_defs.specs.FaultCauses.{ReadsFaults};
ghost use Rattle.pcapng_defs.specs.WholeBlock.{ReadsBlocks};
ghost use Rattle.pcapng_defs.specs.Laws.{GoesBlockByBlock, UnitsGoOptionByOption, BlocksStand, FaultsStand, GoesOnBehindBlocks, FaultsAreNumbered, PacketsAreBounded, PacketsAreFew, AlikeFilesHoldTheSame, FrontsTellFormats};

/// States that the remaining bytes of a file are read block by block.
pub fn a_file_goes_block_by_block()
    ensures law { GoesBlockByBlock }
{}

/// States that a block is found exactly if the remaining bytes begin with a whole one.
pub fn blocks_are_whole()
    ensures law { ReadsBlocks }
{}

/// States that each fault is read exactly if the remaining bytes have it, and the end exactly if
/// nothing is left after a block.
pub fn faults_have_causes()
    ensures law { ReadsFaults }
{}

/// States that the options of an interface are read option by option.
pub fn units_go_option_by_option()
    ensures law { UnitsGoOptionByOption }
{}

/// States that a whole block is read the same whatever follows it, and so is each fault except a
/// cut block.
pub fn whole_blocks_stand()
    ensures blocks { BlocksStand }
    ensures faults { FaultsStand }
{}

/// States that a file that goes on after whole blocks has their packets and then those of the rest.
pub fn a_file_goes_on_behind_whole_blocks()
    ensures law { GoesOnBehindBlocks }
{}

/// States that the fault of a file has a code from 11 to 19, and the number of the block after
/// those read.
pub fn faults_are_numbered()
    ensures law { FaultsAreNumbered }
{}

/// States that a file has at most as many packets as blocks, and at most 4,294,967,295 blocks
/// without a fault.
pub fn packets_are_few()
    ensures law { PacketsAreFew }
{}

/// States that a packet captures at most 262,144 bytes, and that its timestamp is at most the
/// greatest one.
pub fn packets_are_bounded()
    ensures law { PacketsAreBounded }
{}

/// States that a classic file and a pcapng file without faults and with equal packets have equal
/// contents.
pub fn alike_files_hold_the_same()
    ensures law { AlikeFilesHoldTheSame }
{}

/// States that the first 24 bytes of a file, or all if there are fewer, determine its format.
pub fn a_front_tells_the_format()
    ensures law { FrontsTellFormats }
{}
