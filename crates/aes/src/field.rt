// Field arithmetic by logarithms to the base 03.
ghost use Rattle.std.specs.Prelude.{◌≡◌, ◌<◌};
ghost use Rattle.aes.specs.Field.{◌•◌, inverse, power, logarithm, logarithms};
ghost use Rattle.aes.specs.Calls.{power_of, logarithm_of};
ghost use Rattle.aes.specs.Refusal.{reply, value};

use crate::reply::Refusal;
use crate::tables;

// The product. 00 has no logarithm, so its products are answered first.
pub fn multiply(a: u8, b: u8) -> u8
    ensures { result ≡ a • b }
{
    if a == 0 {
        return 0;
    }
    if b == 0 {
        return 0;
    }
    let logarithms = tables::logarithms();
    let i = logarithm_in(&logarithms, a);
    let j = logarithm_in(&logarithms, b);
    power_at((i + j) % 255)
}

// The inverse: the logarithm's opposite modulo 255.
pub fn inverse(b: u8) -> u8
    ensures { result ≡ inverse b }
{
    if b == 0 {
        return 0;
    }
    let logarithms = tables::logarithms();
    let i = logarithm_in(&logarithms, b);
    power_at((255 - i) % 255)
}

// The power n of 03, where n is 0 to 254.
pub fn power(n: u8) -> Result<u8, Refusal>
    ensures { (reply result, value result) ≡ power_of n }
{
    if 254 < n {
        return Err(Refusal::PowerRange);
    }
    Ok(power_at(n as usize))
}

// Which power of 03 a byte is.
pub fn logarithm(b: u8) -> Result<u8, Refusal>
    ensures { (reply result, value result) ≡ logarithm_of b }
{
    if b == 0 {
        return Err(Refusal::NoLogarithm);
    }
    let logarithms = tables::logarithms();
    Ok(logarithms[b as usize - 1])
}

fn power_at(n: usize) -> u8
    requires { n < 255 }
    ensures { result ≡ power n }
{
    let powers = tables::powers();
    powers[n]
}

// The table begins with the logarithm of 01.
fn logarithm_in(lent: &[u8; 255], b: u8) -> usize
    requires { (0 < b) × (lent.now ≡ logarithms) }
    ensures { result ≡ logarithm b }
{
    lent[b as usize - 1] as usize
}
