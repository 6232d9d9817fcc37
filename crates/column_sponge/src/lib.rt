// What a window of two rows does to the running value of the sponge column.
#![tactic(auto)]

ghost use Rattle.std.specs.Prelude.{◌≡◌, ◌∷◌, ◌++◌};
ghost use Rattle.air.specs.MainColumn.{ST1, HV0};
ghost use Rattle.field.specs.Weighed.{weighed_of, Few};
ghost use Rattle.isa.specs.Opcode.{SPONGE-ABSORB};
ghost use Rattle.column_entries.specs.Row.{words_from, weigh};

use air::MainIndex;
use column_compression::unchecked::words_from;
use column_states::unchecked::{weigh_both, weigh_opcode};
use field::XFieldElement;
use field::unchecked::Weighed;
use isa::Instruction;

pub mod unchecked;

// A state that was read from memory: four words are on the current stack, six in the previous helper variables.
#[tactic(auto, using(column_states::proofs::Weighing::weigh_first))]
fn weigh_memory(
    previous: [u64; MainIndex::COUNT],
    current: [u64; MainIndex::COUNT],
    weights: [XFieldElement; 11],
) -> Weighed
    ensures { (weighed_of result ≡ weigh weights (SPONGE-ABSORB ∷ words_from current ST1 4 ++ words_from previous HV0 6)) × Few 11 result }
{
    let stack = words_from(&current, MainIndex::ST1, 4);
    let helper = words_from(&previous, MainIndex::HV0, 6);
    let state = weigh_both(stack, helper, weights, 1);
    weigh_opcode(Instruction::SpongeAbsorb, state, weights)
}
