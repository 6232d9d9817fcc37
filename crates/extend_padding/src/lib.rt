// The running values of the eleven columns, taken on through many padding rows.
#![tactic(auto)]

ghost use Rattle.std.specs.Prelude.{◌≡◌};
ghost use Rattle.extend_cells.specs.Cells.{cells_of};

use extend_cells::Cells;
use field::XFieldElement;

pub mod unchecked;

// The eleven values alike.
fn all_cells(value: XFieldElement) -> Cells
    ensures { result ≡ cells_of (λ c. value) }
{
    Cells {
        input: value,
        output: value,
        instruction: value,
        op_stack: value,
        ram: value,
        jump_stack: value,
        hash_input: value,
        hash_digest: value,
        sponge: value,
        u32_lookup: value,
        clock: value,
    }
}
