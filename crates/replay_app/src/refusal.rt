//! Why an input is rejected.

/// Why an input is rejected: the error's code and its position, or 0 if it has no position.
#[derive(Clone, Copy, PartialEq, Eq, Debug)]
pub struct Refusal {
    pub code: u32,
    pub place: u32,
}
