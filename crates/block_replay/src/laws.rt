//! The laws of the program's output.
ghost use Rattle.block_replay.specs.Laws.{HaveOneBlockAnswer, HaveABlockAnswer};

/// For given arguments and file contents there is at most one correct output, though output is
/// defined by a relation.
pub fn block_words_have_one_answer()
    ensures one { HaveOneBlockAnswer }
{}

/// For all arguments and file contents there is a correct output.
pub fn block_words_have_an_answer()
    ensures some { HaveABlockAnswer }
{}
