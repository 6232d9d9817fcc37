// The operations on words that the caller knows to be below p.
ghost use Rattle.std.specs.Prelude.{◌≡◌, ◌<◌};
ghost use Rattle.algebra.specs.Modulus.{p};
ghost use Rattle.field_base.specs.Totals.{sum_of};
ghost use Rattle.field_montgomery.specs.Form.{from_montgomery, montgomery_product};

use field_base::reducing::first_product;
use field_base::unchecked::{Sum, sub};

// Montgomery's reduction: a product of two words is divided by 2^64. Modulo 2^64 the inverse of p is 2^32 + 1, so that q is two words' sum, and q·p,
// which ends on the product's low word, is q·2^64 less q·2^32 - q.
fn reduce(product: Sum) -> u64
    requires { (product.upper.carries ≡ 0) × (product.upper.word < p) }
    ensures { result ≡ from_montgomery (sum_of product) }
{
    let shifted = product.lo % 4294967296 * 4294967296;
    let q = std::num::wrapping_add_u64(product.lo, shifted);
    let borrow = if q < shifted { 1 } else { 0 };
    let upper = product.upper;
    sub(upper.word, q - q / 4294967296 - borrow)
}

// The product of words in the form.
pub fn mul(a: u64, b: u64) -> u64
    requires { a < p }
    ensures { result ≡ montgomery_product a b }
{
    reduce(first_product(a, b))
}
