//! The commands.
ghost use Rattle.std.specs.Prelude.{◌≡◌};
ghost use Rattle.front_defs.specs.Options.{command_word, has_link, is_size};

/// A command. `Calm` is one on rank stores only. The replayer has all of them except `Size`.
#[derive(Clone, Copy, PartialEq, Eq, Debug)]
pub enum Command {
    Check,
    Plan,
    Replay,
    Link,
    Forward,
    Direct,
    Via,
    Soak,
    Calm,
    Size,
}

impl Command {
    /// Returns the name of a command, as the first argument.
    pub fn word(self) -> &'static str
        ensures { result.now ≡ command_word self }
    {
        match self {
            Command::Check => "check",
            Command::Plan => "plan",
            Command::Replay => "replay",
            Command::Link => "link",
            Command::Forward => "forward",
            Command::Direct => "direct",
            Command::Via => "via",
            Command::Soak => "soak",
            Command::Calm => "calm",
            Command::Size => "size",
        }
    }
    /// Returns whether the command's last argument is the rate of a link that paces its run.
    pub fn has_link(self) -> bool
        ensures { result ≡ has_link self }
    {
        match self {
            Command::Link | Command::Forward => true,
            _ => false,
        }
    }

    /// Returns whether the command is `size`.
    pub fn is_size(self) -> bool
        ensures { result ≡ is_size self }
    {
        matches!(self, Command::Size)
    }
}
