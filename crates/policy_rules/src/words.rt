//! The built-in names.
ghost use Rattle.std.specs.Prelude.{◌≡◌, is_some};
ghost use Rattle.rank_defs.specs.Builtins.{builtin};

use crate::BUILTINS;
use policy_text_defs::is_among;

/// Returns whether a transaction with this name is built in.
pub fn is_builtin(name: &str) -> bool
    ensures { result ≡ is_some (builtin name.now) }
{
    is_among(name.as_bytes(), &BUILTINS)
}
