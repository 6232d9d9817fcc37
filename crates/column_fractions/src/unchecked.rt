// The caller knows the numerators, the symbols and the indeterminate to be below p.
ghost use Rattle.std.specs.Prelude.{◌≡◌, [], ◌∷◌, ◌<◌};
ghost use Rattle.algebra.specs.Modulus.{p};
ghost use Rattle.field.specs.Element.{Canonical};
ghost use Rattle.column_entries.specs.Entries.{one_over};
ghost use Rattle.column_entries.specs.Row.{weigh};
ghost use Rattle.column_entries.specs.Contribution.{sum_of_fractions, no_fraction};

use crate::{compress_operands, lift};
use column_compression::compress;
use column_entries::RowFraction;
use field::XFieldElement;
use field::reducing::element_mul;
use field::unchecked::{element_add, element_sub};

pub const NO_FRACTION: RowFraction = RowFraction {
    numerator: XFieldElement::ZERO,
    denominator: XFieldElement::ONE,
};

// The row's only fraction: with nothing before it, no product is needed.
#[tactic(auto, using(crate::proofs::Single::single))]
pub fn fraction(numerator: u64, symbol: XFieldElement, indeterminate: XFieldElement) -> RowFraction
    requires numerator_lt_p { numerator < p }
    requires canonical { Canonical symbol }
    requires canonical_2 { Canonical indeterminate }
    ensures { result ≡ sum_of_fractions indeterminate no_fraction (record { numerator = numerator; symbol = symbol } ∷ []) }
{
    RowFraction {
        numerator: lift(numerator),
        denominator: element_sub(indeterminate, symbol),
    }
}

// Both fractions of a row, each with numerator 1.
#[tactic(auto, using(crate::proofs::Single::double, field::proofs::Laws::difference_canonical))]
pub fn two_fractions(
    first: XFieldElement,
    second: XFieldElement,
    indeterminate: XFieldElement,
) -> RowFraction
    requires canonical { Canonical first }
    requires canonical_2 { Canonical second }
    requires canonical_3 { Canonical indeterminate }
    ensures { result ≡ sum_of_fractions indeterminate no_fraction (one_over first ∷ one_over second ∷ []) }
{
    let d1 = element_sub(indeterminate, first);
    let d2 = element_sub(indeterminate, second);
    RowFraction {
        numerator: element_add(d2, d1),
        denominator: element_mul(d1, d2),
    }
}

// The fraction of a lookup in the u32 table.
pub fn lookup_fraction(
    words: [u64; 4],
    weights: [XFieldElement; 4],
    indeterminate: XFieldElement,
) -> RowFraction
    requires { Canonical indeterminate }
    ensures { result ≡ sum_of_fractions indeterminate no_fraction (one_over (weigh weights words) ∷ []) }
{
    fraction(1, compress(weights, words), indeterminate)
}

// A lookup that has no result.
pub fn operands_fraction(
    words: [u64; 3],
    weights: [XFieldElement; 4],
    indeterminate: XFieldElement,
) -> RowFraction
    requires { Canonical indeterminate }
    ensures { result ≡ sum_of_fractions indeterminate no_fraction (one_over (weigh weights words) ∷ []) }
{
    fraction(1, compress_operands(weights, words), indeterminate)
}
