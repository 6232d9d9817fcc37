// A row's fractions brought to one denominator.
#![tactic(auto)]

ghost use Rattle.std.specs.Prelude.{◌≡◌};
ghost use Rattle.field.specs.Element.{Canonical, lift};
ghost use Rattle.column_entries.specs.Row.{weigh};

use column_compression::compress;
use field::XFieldElement;

pub mod unchecked;

pub fn lift(word: u64) -> XFieldElement
    ensures { result ≡ lift word }
{
    XFieldElement {
        c0: word,
        c1: 0,
        c2: 0,
    }
}

// Without a result the last weight is left out.
#[tactic(auto, using(crate::proofs::Weigh::operands))]
pub fn compress_operands(weights: [XFieldElement; 4], words: [u64; 3]) -> XFieldElement
    ensures { (result ≡ weigh weights words) × Canonical result }
{
    compress([weights[0], weights[1], weights[2]], words)
}
