// The fractions of a window in the three lookup columns.
#![tactic(auto)]

use column_entries::RowFraction;
use field::XFieldElement;

pub mod unchecked;

#[derive(Clone, Copy)]
pub struct Fractions {
    pub instruction: RowFraction,
    pub u32_lookup: RowFraction,
    pub clock: RowFraction,
}

// Each fraction divided out.
#[derive(Clone, Copy)]
pub struct Quotients {
    pub instruction: XFieldElement,
    pub u32_lookup: XFieldElement,
    pub clock: XFieldElement,
}
