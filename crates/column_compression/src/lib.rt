// What the columns' entry functions share: a row's words read, and compressed to an element: each times its weight, summed.
#![tactic(auto)]

ghost use Rattle.std.specs.Prelude.{◌≡◌, ◌+◌, ◌-◌, ◌≤◌, length, drop};
ghost use Rattle.field.specs.Element.{Canonical, sum};
ghost use Rattle.field.specs.Weighed.{weighed_of, Few};
ghost use Rattle.column_entries.specs.Row.{weigh};

use field::XFieldElement;
use field::unchecked::{Weighed, settle_weighed, weigh_more};
use field_base::unchecked::{Sum, Total, add_product, settle};

pub mod unchecked;

const NO_SUM: Sum = Sum {
    upper: Total {
        carries: 0,
        word: 0,
    },
    lo: 0,
};

pub const NO_WORDS: Weighed = Weighed {
    c0: NO_SUM,
    c1: NO_SUM,
    c2: NO_SUM,
};

// The words under the weights from `from` on, beside the words behind them, which are weighed already.
#[tactic(auto, using(crate::proofs::Weigh::behind_none, field::proofs::Totals::few_in))]
pub fn weigh_words<const N: usize>(
    words: &[u64],
    weights: [XFieldElement; N],
    from: usize,
    behind: Weighed,
) -> Weighed
    requires words_bound { (from + length words.now ≤ N) × (N ≤ 16) }
    requires few { Few (N - (from + length words.now)) behind }
    ensures { (weighed_of result ≡ sum (weigh (drop from weights.entry) words.now) (weighed_of behind)) × Few (N - from) result }
{
    let mut sums = behind;
    for i in (0..words.len()).rev() {
        sums = weigh_more(words[i], weights[from + i], sums);
    }
    sums
}

// The compiler unrolls the loop, as long as nothing else calls `weigh_words` at the same N.
#[tactic(auto, using(crate::proofs::Weigh::all_words, column_entries::proofs::Weigh::weigh_canonical))]
pub fn compress<const N: usize>(weights: [XFieldElement; N], words: [u64; N]) -> XFieldElement
    requires { N ≤ 16 }
    ensures { (result ≡ weigh weights.entry words.entry) × Canonical result }
{
    settle_weighed(weigh_words(&words, weights, 0, NO_WORDS))
}

// The coefficient of X^0 of the same.
#[tactic(auto, using(crate::proofs::Weigh::one_more_c0))]
pub fn compress3_c0(weights: [XFieldElement; 3], words: [u64; 3]) -> u64
    ensures { result ≡ (weigh weights words).c0 }
{
    let mut sum = NO_SUM;
    for i in (0..3).rev() {
        sum = add_product(sum, words[i], weights[i].c0);
    }
    settle(sum)
}
