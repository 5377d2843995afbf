//! The two ways to split a line into tokens.

/// How a line is split into tokens.
#[derive(Clone, Copy, Debug, PartialEq, Eq)]
pub enum Dialect {
    /// A word is a letter or `_`, then letters, digits and `_`. There are no braces.
    Classic,
    /// A run of letters, digits, `_`, `:` and `-` is one token. Braces are marks.
    Third,
}
