//! Lines and tokens of a text as spans, the meaning of tokens, and decimal numbers. Begin with
//! specs/Tokens.antt.
#![tactic(auto)]

mod dialect;
mod item;
mod law;
mod line;
mod mark;
mod number;
mod refusal;
mod token;

pub use dialect::Dialect;
pub use item::{Item, items, items_in};
pub use law::{
    bytes_say_one_list, longest_run_is_taken, longest_token_is_taken, printed_number_reads_back,
    tokens_say_the_line,
};
pub use line::{Line, line_from, lines};
pub use mark::Mark;
pub use number::{MAX, decimal, put_decimal};
pub use refusal::Refusal;
pub use token::{Token, TokenFault, TokenKind, tokens, tokens_in};
