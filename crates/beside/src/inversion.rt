// Masked inversion by logarithms, after document 001, section 5: x is a byte A covered by the mask r, and the answer is the
// inverse of A covered by r. x and r are never xored. A and its inverse are met inside A / r, r / A and x / A xor x r, and
// never alone but at r = 01, where A / r is A.
ghost use Rattle.std.specs.Prelude.{◌≡◌};
ghost use Rattle.aes.specs.Field.{◌•◌, inverse};
ghost use Rattle.beside.specs.Inversion.{masked_inverse};

use aes::{inverse, multiply};

// The method divides by r, then by A, then by x. Each may be 00, and has its answer before it is divided by: the mask 00 left A
// bare, x = r covers 00, and under x = 00 the mask is A itself.
pub fn masked_inverse(x: u8, r: u8) -> u8
    ensures { result ≡ masked_inverse x r }
{
    if r == 0 {
        return inverse(x);
    }
    if x == r {
        return r;
    }
    if x == 0 {
        return inverse(r) ^ r;
    }
    // x / r is A / r xor 01.
    let bare_over_mask = quotient(x, r) ^ 1;
    let mask_over_bare = inverse(bare_over_mask);
    // r / A xor 01 is x / A, which is x times the inverse of A. With x r added first, x is taken out of both.
    quotient(mask_over_bare ^ (1 ^ multiply(x, r)), x)
}

// a / b, the power at the difference of the logarithms.
fn quotient(a: u8, b: u8) -> u8
    ensures { result ≡ a • inverse b }
{
    multiply(a, inverse(b))
}
