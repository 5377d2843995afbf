//! The laws of the program's output.
ghost use Rattle.replay_app.specs.Laws.{HaveOneAnswer, HaveAnAnswer, ReplayReportsWhatDirectReports};

/// For given arguments and file contents there is at most one correct output, though output is
/// defined by a relation.
pub fn words_have_one_answer()
    ensures one { HaveOneAnswer }
{}

/// For all arguments and file contents there is a correct output.
pub fn words_have_an_answer()
    ensures some { HaveAnAnswer }
{}

/// If some map embeds the policy's tree into the target, `replay` reports exactly what `direct`
/// reports.
pub fn replay_reports_what_direct_reports()
    ensures law { ReplayReportsWhatDirectReports }
{}
