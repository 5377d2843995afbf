//! The names of the built-in transactions.
/// The names of the built-in transactions. They come first in the list of all transactions, in this
/// order.
pub const BUILTINS: [&str; 6] = ["fifo", "strict", "shortest", "lstf", "rr", "stfq"];
