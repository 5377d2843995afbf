//! A given map from one topology to another.
use list_core::List;

/// Holds, for each node of a topology in preorder, the address that is its image, and the number of
/// the line that gives it.
#[derive(Drop)]
pub struct Given {
    pub images: List<List<u32>>,
    pub lines: List<u32>,
}
