//! Expressions over exact integers and truth values.

/// The greatest depth of an expression. A number or a variable has depth 1.
pub const MAX_DEPTH: u32 = 64;

/// A variable that an expression can read. `Keep` and `Each` are numbered in the order of
/// declaration.
#[derive(Clone, Copy, PartialEq, Eq, Debug)]
pub enum Var {
    Len,
    Now,
    Prio,
    Weight,
    Slack,
    Rank,
    Keep(u32),
    Each(u32),
}

/// A binary operation.
#[derive(Clone, Copy, PartialEq, Eq, Debug)]
pub enum Op {
    Add,
    Sub,
    Mul,
    Div,
    Less,
    LessEq,
    Equal,
    NotEqual,
    MoreEq,
    More,
    Min,
    Max,
    And,
    Or,
}

/// An expression.
#[derive(Debug, Drop)]
pub enum Expr {
    Number(u64),
    Var(Var),
    Two(Op, Box<Expr>, Box<Expr>),
    Not(Box<Expr>),
    If(Box<Expr>, Box<Expr>, Box<Expr>),
}
