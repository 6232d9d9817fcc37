// Compressing up to eleven words, an opcode and a state's ten: each times its weight, summed, and reduced once. The caller knows
// how many words there are, and the indeterminate to be below p.
ghost use Rattle.std.specs.Prelude.{◌≡◌, [], ◌∷◌, ◌++◌, ◌+◌, ◌-◌, ◌≤◌, length, drop, get_or};
ghost use Rattle.field.specs.Element.{Canonical, zero, sum, scale};
ghost use Rattle.field.specs.Weighed.{weighed_of, Few};
ghost use Rattle.isa.specs.Instruction.{opcode_of};
ghost use Rattle.column_entries.specs.Row.{weigh};
ghost use Rattle.column_entries.specs.Contribution.{absorbing, identity_map};

use column_compression::{NO_WORDS, weigh_words};
use column_maps::unchecked::absorb_entry;
use field::XFieldElement;
use field::unchecked::{Weighed, settle_weighed, weigh_more};
use isa::Instruction;
use scan_steps::AffineMap;

// A run of words under the weights from `from` on.
pub fn weigh_state<const N: usize>(
    words: &[u64],
    weights: [XFieldElement; N],
    from: usize,
) -> Weighed
    requires { (from + length words.now ≤ N) × (N ≤ 11) }
    ensures { (weighed_of result ≡ weigh (drop from weights.entry) words.now) × Few (N - from) result }
{
    weigh_words(words, weights, from, NO_WORDS)
}

// Two runs, one behind the other.
pub fn weigh_both<'a, const N: usize>(
    first: &'a [u64],
    second: &'a [u64],
    weights: [XFieldElement; N],
    from: usize,
) -> Weighed
    requires { (from + length first.now + length second.now ≤ N) × (N ≤ 11) }
    ensures { (weighed_of result ≡ weigh (drop from weights.entry) (first.now ++ second.now)) × Few (N - from) result }
{
    let behind = weigh_words(second, weights, from + first.len(), NO_WORDS);
    weigh_words(first, weights, from, behind)
}

// An opcode under the first weight, beside a state that is weighed already.
pub fn weigh_opcode(
    instruction: Instruction,
    state: Weighed,
    weights: [XFieldElement; 11],
) -> Weighed
    requires { Few 10 state }
    ensures { (weighed_of result ≡ sum (scale (opcode_of instruction) (get_or weights 0 zero)) (weighed_of state)) × Few 11 result }
{
    weigh_more(isa::opcode(instruction), weights[0], state)
}

// The map of one entry, its words weighed.
pub fn absorb_weighed(words: Weighed, indeterminate: XFieldElement) -> AffineMap
    requires few { Few 11 words }
    requires canonical { Canonical indeterminate }
    ensures { result ≡ absorbing indeterminate identity_map (weighed_of words ∷ []) }
{
    absorb_entry(settle_weighed(words), indeterminate)
}
