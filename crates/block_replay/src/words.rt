//! The arguments of the commands.
ghost use Rattle.std.specs.Prelude.{◌≡◌, MatchOption};
ghost use Rattle.block_replay.specs.Words.{block_form_up_to, calm_by, calm_form, shared, task_form};
ghost use Rattle.replay_app.specs.Words.{no_form, texts};

use policy_text::Edition;

/// The file names of `calm`.
#[derive(Clone, Copy, Debug)]
pub struct CalmFiles<'a> {
    /// The policy is read up to this edition.
    pub latest: Edition,
    pub policy: &'a str,
    pub target: &'a str,
}

/// The task that the arguments give.
#[derive(Clone, Copy, Debug)]
pub enum Task<'a> {
    /// Reports whether a policy is calm in a target.
    Calm(CalmFiles<'a>),
    /// Runs a command of the program over plain queues.
    Shared,
    /// The arguments are malformed.
    NoForm,
}

/// Returns the files of `calm`, if exactly a policy and a target follow it.
fn calm_by(latest: Edition, names: &[String]) -> Option<CalmFiles<'_>>
    ensures { MatchOption result (calm_by latest (texts names.now) ≡ shared no_form) (λ files.
        calm_by latest (texts names.now) ≡ calm_form files) }
{
    match names {
        [policy, target] => Some(CalmFiles {
            latest,
            policy: policy.as_str(),
            target: target.as_str(),
        }),
        _ => None,
    }
}

/// Returns the task that the arguments give, if policies are read up to the edition `latest`.
pub fn task_of(latest: Edition, words: &[String]) -> Task<'_>
    ensures form { block_form_up_to latest words.now ≡ task_form latest (texts words.now) result }
{
    match words {
        [command, ..] if matches!(command.as_str(), "via" | "forward") => Task::NoForm,
        [command, names @ ..] if command.as_str() == "calm" => match calm_by(latest, names) {
            Some(files) => Task::Calm(files),
            None => Task::NoForm,
        },
        [_, ..] => Task::Shared,
        [] => Task::NoForm,
    }
}
