// Words of any value into the form and out of it, and inverses.
ghost use Rattle.std.specs.Prelude.{◌≡◌};
ghost use Rattle.field_montgomery.specs.Form.{to_montgomery, from_montgomery, montgomery_inverse, plain_word, word_in};

use crate::Form;
use crate::unchecked::mul;

// 2^64, 2^128 modulo p.
const RADIX: u64 = 4294967295;

const RADIX_SQUARED: u64 = 18446744065119617025;

pub fn to_montgomery(a: u64) -> u64
    ensures { result ≡ to_montgomery a }
{
    field_base::reducing::mul(a, RADIX)
}

pub fn from_montgomery(a: u64) -> u64
    ensures { result ≡ from_montgomery a }
{
    mul(1, a)
}

// 0 gives 0.
pub fn inverse(a: u64) -> u64
    ensures { result ≡ montgomery_inverse a }
{
    field_base::reducing::mul(field_base::reducing::inverse(a), RADIX_SQUARED)
}

// A word that is kept in the form, as a plain one.
pub fn plain_word(form: Form, word: u64) -> u64
    ensures { result ≡ plain_word form word }
{
    match form {
        Form::Plain => word,
        Form::Montgomery => from_montgomery(word),
    }
}

// A plain word in the form.
// kept: beside `plain_word`: one function for both ways would take the way by a flag.
pub fn word_in(form: Form, word: u64) -> u64
    ensures { result ≡ word_in form word }
{
    match form {
        Form::Plain => word,
        Form::Montgomery => to_montgomery(word),
    }
}
