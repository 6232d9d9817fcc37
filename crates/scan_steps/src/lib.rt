// Prefix scans over any associative step, and the affine maps among their items.
#![tactic(auto)]

use field::XFieldElement;

pub mod unchecked;

// r → a·r + b.
#[derive(Clone, Copy)]
pub struct AffineMap {
    pub a: XFieldElement,
    pub b: XFieldElement,
}
