// What a row of the main table, or a window of two, brings to each of the eleven columns.
#![tactic(auto)]

use field::XFieldElement;

// The fractions of a row, brought to one denominator.
#[derive(Clone, Copy)]
pub struct RowFraction {
    pub numerator: XFieldElement,
    pub denominator: XFieldElement,
}
