// Base elements in Montgomery form: v is kept as v·2^64 modulo p. A public operation turns away a word that is not below p.
#![tactic(auto)]

ghost use Rattle.std.specs.Prelude.{◌≡◌};
ghost use Rattle.field_montgomery.specs.Answers.{to_answer, from_answer, montgomery_add, montgomery_mul, montgomery_inverted};

use field_base::below_p;
use refusal::Refusal;

// How a base element is kept: as itself, or in Montgomery form.
#[derive(Clone, Copy)]
pub enum Form {
    Plain,
    Montgomery,
}

// The same operations for callers that know their words to be below p; conversions and inverses of any words.
pub mod reducing;
pub mod unchecked;

pub fn to_montgomery(a: u64) -> Result<u64, Refusal>
    ensures { result ≡ to_answer a }
{
    Ok(reducing::to_montgomery(below_p(a)?))
}

pub fn from_montgomery(a: u64) -> Result<u64, Refusal>
    ensures { result ≡ from_answer a }
{
    Ok(reducing::from_montgomery(below_p(a)?))
}

pub fn add(a: u64, b: u64) -> Result<u64, Refusal>
    ensures { result ≡ montgomery_add a b }
{
    field_base::add(a, b)
}

pub fn mul(a: u64, b: u64) -> Result<u64, Refusal>
    ensures { result ≡ montgomery_mul a b }
{
    Ok(unchecked::mul(below_p(a)?, below_p(b)?))
}

pub fn inverse(a: u64) -> Result<u64, Refusal>
    ensures { result ≡ montgomery_inverted a }
{
    if below_p(a)? == 0 {
        return Err(Refusal::ZeroDenominator);
    }
    Ok(reducing::inverse(a))
}
