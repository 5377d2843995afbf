//! The children of a node in the order of their images, and a search among them.
ghost use Rattle.std.specs.Prelude.{◌≡◌, ℕ, ◌≤◌, length, IfOk};
ghost use Rattle.embed_core.specs.ImageOrder.{IsImageOrder, AreApart, IsOnSide, EachChild, GoesBeside, is_behind};
ghost use Rattle.tree_defs.specs.Tree.{root_of, most_nodes};

use crate::map::Map;
use std::alloc::{AllocError, Global};

/// Returns the indices of some maps, in the order of their roots' images.
pub fn image_order(alloc: Global, children: &[Map]) -> Result<Vec<u32>, AllocError>
    requires few { length children.now ≤ most_nodes }
    ensures order { IfOk result (λ order. IsImageOrder children.now order.items) }
{
    let mut images = Vec::new(alloc);
    for (index, child) in children.iter().enumerate() {
        images.push((child.root(), index as u32))?;
    }
    images.sort_unstable();
    let mut order = Vec::new(alloc);
    for (_image, index) in &images {
        order.push(*index)?;
    }
    Ok(order)
}

/// Returns the index of the child whose image is a prefix of these digits. All images have the same
/// digits as these down to this depth.
pub fn child_to(children: &[Map], order: &[u32], depth: usize, digits: &[u32]) -> u32
    requires order { IsImageOrder children.now order.now }
    requires apart { AreApart children.now }
    requires some { (i : ℕ) × IsOnSide children.now digits.now i }
    requires above { EachChild children.now (λ image. GoesBeside depth image digits.now) }
    ensures side { IsOnSide children.now digits.now result }
{
    let mut low = 0;
    let mut high = order.len();
    while high - low > 1 {
        let middle = low + (high - low) / 2;
        if root_is_behind(&children[order[middle] as usize], depth, digits) {
            high = middle;
        } else {
            low = middle;
        }
    }
    order[low]
}

/// Says whether the root's image comes after an address in the order of digits. The two have the
/// same digits down to this depth.
fn root_is_behind(child: &Map, depth: usize, digits: &[u32]) -> bool
    requires above { GoesBeside depth (root_of child.now) digits.now }
    ensures behind { result ≡ is_behind (root_of child.now) digits.now }
{
    let image = child.root();
    for place in depth..image.len() {
        if image[place] != digits[place] {
            return image[place] > digits[place];
        }
    }
    false
}
