//! The laws of tokens and lines.
ghost use Rattle.text_core.specs.Laws.{LongestTokenIsTaken, LongestRunIsTaken, BytesSayOneList, TokensSayTheLine, PrintedNumberReadsBack};

/// A token of the classic dialect is the longest prefix of the bytes that is a word, a number or a
/// mark. Digits directly before a letter or `_` are no number.
pub fn longest_token_is_taken()
    ensures { LongestTokenIsTaken }
{}

/// A token of the third dialect is the longest prefix of the bytes that is a word, a number or a
/// mark.
pub fn longest_run_is_taken()
    ensures { LongestRunIsTaken }
{}

/// The bytes of a line of the classic dialect mean at most one list of words, numbers and marks.
pub fn bytes_say_one_list()
    ensures { BytesSayOneList }
{}

/// The tokens of a line have the same meaning as its bytes.
pub fn tokens_say_the_line()
    ensures { TokensSayTheLine }
{}

/// A number printed in decimal reads back as the same number.
pub fn printed_number_reads_back()
    ensures { PrintedNumberReadsBack }
{}
