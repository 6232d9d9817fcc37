// The caller knows the rows' words and the indeterminate's to be below p.
ghost use Rattle.std.specs.Prelude.{◌≡◌, true, [], ◌<◌, get_or};
ghost use Rattle.algebra.specs.Modulus.{p};
ghost use Rattle.field_base.specs.Words.{all_below};
ghost use Rattle.field.specs.Element.{Canonical};
ghost use Rattle.column_entries.specs.Entries.{u32_entries, and_of_xor};
ghost use Rattle.column_entries.specs.Contribution.{sum_of_fractions, no_fraction};

use air::MainIndex;
use air::unchecked::word_at;
use column_compression::compress;
use column_entries::RowFraction;
use column_fractions::compress_operands;
use column_fractions::unchecked::{NO_FRACTION, lookup_fraction, operands_fraction, two_fractions};
use field::XFieldElement;
use field_base::reducing::mul;
use field_base::unchecked::{add, sub};
use isa::opcodes;

const ONE_HALF: u64 = 9223372034707292161;

// a & b from a ^ b: (a + b - a ^ b) / 2 in the field.
#[tactic(auto, using(crate::proofs::Half::one_half))]
fn and_from_xor(a: u64, b: u64, xor: u64) -> u64
    requires { (a < p) × (b < p) × (xor < p) }
    ensures { result ≡ and_of_xor a b xor }
{
    mul(sub(add(a, b), xor), ONE_HALF)
}

#[tactic(auto, using(field_base::proofs::Below::word_below), unfolding(column_entries::specs::Entries::u32_lookups, column_entries::specs::Entries::u32_entries, column_entries::specs::Contribution::sum_of_fractions))]
pub fn fraction_for_u32_lookup(
    window: [[u64; MainIndex::COUNT]; 2],
    weights: [XFieldElement; 4],
    indeterminate: XFieldElement,
) -> RowFraction
    requires window_value { all_below (get_or window 0 []) ≡ true }
    requires window_value_2 { all_below (get_or window 1 []) ≡ true }
    requires canonical { Canonical indeterminate }
    ensures { result ≡ sum_of_fractions indeterminate no_fraction (u32_entries weights (get_or window 0 []) (get_or window 1 [])) }
{
    let previous_ci = word_at(&window[0], MainIndex::CI);
    let st0_prev = word_at(&window[0], MainIndex::ST0);
    let st1_prev = word_at(&window[0], MainIndex::ST1);
    let st0 = word_at(&window[1], MainIndex::ST0);
    let st1 = word_at(&window[1], MainIndex::ST1);
    match previous_ci {
        opcodes::SPLIT => operands_fraction([st0, st1, opcodes::SPLIT], weights, indeterminate),
        opcodes::LT | opcodes::AND | opcodes::POW => lookup_fraction(
            [st0_prev, st1_prev, previous_ci, st0],
            weights,
            indeterminate,
        ),
        opcodes::XOR => {
            let and = and_from_xor(st0_prev, st1_prev, st0);
            lookup_fraction(
                [st0_prev, st1_prev, opcodes::AND, and],
                weights,
                indeterminate,
            )
        }
        opcodes::LOG_2_FLOOR | opcodes::POP_COUNT => {
            lookup_fraction([st0_prev, 0, previous_ci, st0], weights, indeterminate)
        }
        opcodes::DIV_MOD => {
            let lt_check = compress(weights, [st0, st1_prev, opcodes::LT, 1]);
            let range_check = compress_operands(weights, [st0_prev, st1, opcodes::SPLIT]);
            two_fractions(lt_check, range_check, indeterminate)
        }
        opcodes::MERKLE_STEP | opcodes::MERKLE_STEP_MEM => {
            let st5_prev = word_at(&window[0], MainIndex::ST5);
            let st5 = word_at(&window[1], MainIndex::ST5);
            operands_fraction([st5_prev, st5, opcodes::SPLIT], weights, indeterminate)
        }
        _ => NO_FRACTION,
    }
}
