// Arithmetic modulo p = 2^64 - 2^32 + 1. A public operation turns away a word that is not below p.
#![tactic(auto)]

ghost use Rattle.std.specs.Prelude.{◌≡◌};
ghost use Rattle.field_base.specs.Words.{all_below};
ghost use Rattle.field_base.specs.Answers.{below_p, base_add, base_sub, base_mul, base_inverse};

use refusal::Refusal;

// The same operations for callers that know their words to be below p; products and inverses of any words.
pub mod reducing;
pub mod unchecked;

pub const P: u64 = 18446744069414584321;

// Whether every word is below p. No branch in the loop: the top bit of w & (p - 1 - w), modulo 2^64, is set where w is not below p.
pub fn all_below(words: &[u64]) -> bool
    ensures { result ≡ all_below words.now }
{
    let mut above: u64 = 0;
    for &w in words {
        above |= w & std::num::wrapping_sub_u64(P - 1, w);
    }
    above < 9223372036854775808
}

// The word itself, unless it is not below p.
pub fn below_p(word: u64) -> Result<u64, Refusal>
    ensures { result ≡ below_p word }
{
    if word < P {
        Ok(word)
    } else {
        Err(Refusal::WordNotBelowP)
    }
}

pub fn add(a: u64, b: u64) -> Result<u64, Refusal>
    ensures { result ≡ base_add a b }
{
    Ok(unchecked::add(below_p(a)?, below_p(b)?))
}

pub fn sub(a: u64, b: u64) -> Result<u64, Refusal>
    ensures { result ≡ base_sub a b }
{
    Ok(unchecked::sub(below_p(a)?, below_p(b)?))
}

pub fn mul(a: u64, b: u64) -> Result<u64, Refusal>
    ensures { result ≡ base_mul a b }
{
    Ok(reducing::mul(below_p(a)?, below_p(b)?))
}

pub fn inverse(a: u64) -> Result<u64, Refusal>
    ensures { result ≡ base_inverse a }
{
    if below_p(a)? == 0 {
        return Err(Refusal::ZeroDenominator);
    }
    Ok(reducing::inverse(a))
}
