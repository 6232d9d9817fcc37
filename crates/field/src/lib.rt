// The field of the p^3 elements. A public operation turns away a word that is not below p.
#![tactic(auto)]

ghost use Rattle.std.specs.Prelude.{◌≡◌, [], ◌∷◌, IfOk};
ghost use Rattle.field.specs.Element.{canonical, Canonical, is_zero, zero, one, X};
ghost use Rattle.field.specs.Answers.{checked, element_add, element_sub, element_mul, element_scale, element_inverse};

use field_base::{all_below, below_p};
use refusal::Refusal;

// The same operations for callers that know their words to be below p; products of any words.
pub mod reducing;
pub mod unchecked;

// c0 + c1·X + c2·X² modulo X³ - X + 1.
#[derive(Clone, Copy, PartialEq, Eq)]
pub struct XFieldElement {
    pub c0: u64,
    pub c1: u64,
    pub c2: u64,
}

impl XFieldElement {
    pub const ZERO: XFieldElement = XFieldElement {
        c0: 0,
        c1: 0,
        c2: 0,
    };

    pub const ONE: XFieldElement = XFieldElement {
        c0: 1,
        c1: 0,
        c2: 0,
    };

    pub const X: XFieldElement = XFieldElement {
        c0: 0,
        c1: 1,
        c2: 0,
    };

    // The constants in order: their contract is what ties them to the definitions.
    pub fn constants() -> [XFieldElement; 3]
        ensures { result ≡ zero ∷ one ∷ X ∷ [] }
    {
        [XFieldElement::ZERO, XFieldElement::ONE, XFieldElement::X]
    }
}

// Whether the three words of an element are below p.
pub fn is_canonical(e: XFieldElement) -> bool
    ensures { result ≡ canonical e }
{
    all_below(&[e.c0, e.c1, e.c2])
}

pub fn is_zero(e: XFieldElement) -> bool
    ensures { result ≡ is_zero e }
{
    e == XFieldElement::ZERO
}

// The element itself, unless a word of it is not below p.
fn checked(e: XFieldElement) -> Result<XFieldElement, Refusal>
    ensures value { result ≡ checked e }
    ensures canonical { IfOk result (λ x. Canonical x) }
{
    if is_canonical(e) {
        Ok(e)
    } else {
        Err(Refusal::WordNotBelowP)
    }
}

pub fn element_add(a: XFieldElement, b: XFieldElement) -> Result<XFieldElement, Refusal>
    ensures { result ≡ element_add a b }
{
    Ok(unchecked::element_add(checked(a)?, checked(b)?))
}

pub fn element_sub(a: XFieldElement, b: XFieldElement) -> Result<XFieldElement, Refusal>
    ensures { result ≡ element_sub a b }
{
    Ok(unchecked::element_sub(checked(a)?, checked(b)?))
}

pub fn element_mul(a: XFieldElement, b: XFieldElement) -> Result<XFieldElement, Refusal>
    ensures { result ≡ element_mul a b }
{
    Ok(reducing::element_mul(checked(a)?, checked(b)?))
}

// A base word times an element.
pub fn element_scale(k: u64, a: XFieldElement) -> Result<XFieldElement, Refusal>
    ensures { result ≡ element_scale k a }
{
    Ok(reducing::element_scale(below_p(k)?, checked(a)?))
}

pub fn element_inverse(a: XFieldElement) -> Result<XFieldElement, Refusal>
    ensures { result ≡ element_inverse a }
{
    if is_zero(checked(a)?) {
        return Err(Refusal::ZeroDenominator);
    }
    Ok(unchecked::element_inverse(a))
}
