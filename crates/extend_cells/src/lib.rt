// The running values of the eleven columns: before any row, and in a row of the auxiliary table.
#![tactic(auto)]

ghost use Rattle.std.specs.Prelude.{◌≡◌, []};
ghost use Rattle.extend_cells.specs.Cells.{running_cells};

use field::XFieldElement;

pub mod unchecked;

// In the order of the columns.
// kept: no invariant that their words are below p, since `cells_in` reads a row of any words.
#[derive(Clone, Copy)]
pub struct Cells {
    pub input: XFieldElement,
    pub output: XFieldElement,
    pub instruction: XFieldElement,
    pub op_stack: XFieldElement,
    pub ram: XFieldElement,
    pub jump_stack: XFieldElement,
    pub hash_input: XFieldElement,
    pub hash_digest: XFieldElement,
    pub sponge: XFieldElement,
    pub u32_lookup: XFieldElement,
    pub clock: XFieldElement,
}

// Before any row: evaluations and products start at 1, sums of fractions at 0.
pub fn first_cells() -> Cells
    ensures { result ≡ running_cells [] [] 0 }
{
    Cells {
        input: XFieldElement::ONE,
        output: XFieldElement::ONE,
        instruction: XFieldElement::ZERO,
        op_stack: XFieldElement::ONE,
        ram: XFieldElement::ONE,
        jump_stack: XFieldElement::ONE,
        hash_input: XFieldElement::ONE,
        hash_digest: XFieldElement::ONE,
        sponge: XFieldElement::ONE,
        u32_lookup: XFieldElement::ZERO,
        clock: XFieldElement::ZERO,
    }
}
