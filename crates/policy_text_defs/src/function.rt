//! The functions of expressions: words written before parentheses.
ghost use Rattle.std.specs.Prelude.{◌≡◌};
ghost use Rattle.policy_text_defs.specs.Words.{function_of};

use rank_defs::Op;

/// A function: a word that is written before parentheses.
#[derive(Clone, Copy, PartialEq, Eq, Debug)]
pub enum Function {
    /// `min`, `max`, `and` or `or`, of two operands.
    Two(Op),
    Not,
    If,
}

impl Function {
    /// Returns the function that a word names.
    pub fn of(word: &[u8]) -> Option<Function>
        ensures { result ≡ function_of word.now }
    {
        Some(match word {
            b"min" => Function::Two(Op::Min),
            b"max" => Function::Two(Op::Max),
            b"and" => Function::Two(Op::And),
            b"or" => Function::Two(Op::Or),
            b"not" => Function::Not,
            b"if" => Function::If,
            _ => return None,
        })
    }
}
