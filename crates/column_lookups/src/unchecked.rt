// The caller knows the current row's words and the indeterminate's to be below p. A window is the previous row, then the current one.
ghost use Rattle.std.specs.Prelude.{◌≡◌, true, [], get_or};
ghost use Rattle.field_base.specs.Words.{all_below};
ghost use Rattle.field.specs.Element.{Canonical};
ghost use Rattle.column_entries.specs.Entries.{instruction_entries, clock_entries};
ghost use Rattle.column_entries.specs.Contribution.{sum_of_fractions, no_fraction};

use air::MainIndex;
use air::unchecked::word_at;
use column_compression::compress;
use column_compression::unchecked::is_padding;
use column_entries::RowFraction;
use column_fractions::lift;
use column_fractions::unchecked::{NO_FRACTION, fraction};
use field::XFieldElement;

#[tactic(auto, unfolding(column_entries::specs::Entries::instruction_entries, column_entries::specs::Contribution::sum_of_fractions))]
pub fn fraction_for_instruction_lookup(
    window: [[u64; MainIndex::COUNT]; 2],
    weights: [XFieldElement; 3],
    indeterminate: XFieldElement,
) -> RowFraction
    requires { Canonical indeterminate }
    ensures { result ≡ sum_of_fractions indeterminate no_fraction (instruction_entries weights (get_or window 1 [])) }
{
    let row = &window[1];
    if is_padding(row) {
        return NO_FRACTION;
    }
    let words = [
        word_at(row, MainIndex::IP),
        word_at(row, MainIndex::CI),
        word_at(row, MainIndex::NIA),
    ];
    fraction(1, compress(weights, words), indeterminate)
}

#[tactic(auto, using(field_base::proofs::Below::word_below, field::proofs::Units::lift_canonical), unfolding(column_entries::specs::Entries::clock_entries, column_entries::specs::Contribution::sum_of_fractions))]
pub fn fraction_for_clock_jump_difference_lookup(
    window: [[u64; MainIndex::COUNT]; 2],
    indeterminate: XFieldElement,
) -> RowFraction
    requires window_value { all_below (get_or window 1 []) ≡ true }
    requires canonical { Canonical indeterminate }
    ensures { result ≡ sum_of_fractions indeterminate no_fraction (clock_entries (get_or window 1 [])) }
{
    let row = &window[1];
    let multiplicity = word_at(row, MainIndex::CLOCK_JUMP_DIFFERENCE_LOOKUP_MULTIPLICITY);
    if multiplicity == 0 {
        return NO_FRACTION;
    }
    let clk = lift(word_at(row, MainIndex::CLK));
    fraction(multiplicity, clk, indeterminate)
}
