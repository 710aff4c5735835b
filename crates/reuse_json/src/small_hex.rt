//! Bytes read from small hexadecimal digits, without a branch for each digit.
ghost use Rattle.std.specs.Prelude.{◌≡◌, ◌*◌, ◌<◌, ◌≤◌, length, slice_index, IfOk, IsTrue};
ghost use Rattle.hex.specs.Hex.{encode_lower, lower_digits, IsBytes};

use crate::fault::DecodeFault;
use std::alloc::Global;

// More than any digit has.
const NO_DIGIT: u8 = 16;

/// The bytes that these small digits spell.
pub(crate) fn decode(alloc: Global, digits: &[u8]) -> Result<Vec<u8>, DecodeFault>
    ensures digits { IfOk result (λ bytes. digits.now ≡ encode_lower bytes.items) }
    ensures bytes { IfOk result (λ bytes. IsBytes bytes.items) }
{
    let mut bytes = vec![in alloc; 0u8; digits.len() / 2]?;
    if decode_to(digits, bytes.as_mut_slice()) {
        Ok(bytes)
    } else {
        Err(DecodeFault::NotGood)
    }
}

/// Fills the bytes with those that these small digits spell. Where it can't, it leaves anything in
/// them.
pub(crate) fn decode_to(digits: &[u8], bytes: &mut [u8]) -> bool
    ensures digits { IsTrue result → digits.now ≡ encode_lower bytes.new }
    ensures bytes { IsBytes bytes.new }
{
    digits.len() == 2 * bytes.len() && highest_digit(digits, bytes) < NO_DIGIT
}

// Fills the bytes, and answers the highest value of a digit: `NO_DIGIT` where one is none.
fn highest_digit(digits: &[u8], bytes: &mut [u8]) -> u8
    requires { length digits.now ≡ 2 * length bytes.old }
    ensures { result < 16 → digits.now ≡ encode_lower bytes.new }
{
    let mut highest = 0;
    for i in 0..bytes.len() {
        let high = digit_value(digits[2 * i]);
        let low = digit_value(digits[2 * i + 1]);
        bytes[i] = high % NO_DIGIT * 16 + low % NO_DIGIT;
        highest = larger(highest, larger(high, low));
    }
    highest
}

// The value of a small digit, or `NO_DIGIT`.
fn digit_value(digit: u8) -> u8
    ensures digit { result < 16 → slice_index lower_digits result ≡ digit }
    ensures bound { result ≤ 16 }
{
    match digit {
        b'0'..=b'9' => digit - b'0',
        b'a'..=b'f' => digit - b'a' + 10,
        _ => NO_DIGIT,
    }
}

fn larger(a: u8, b: u8) -> u8
    ensures first { a ≤ result }
    ensures second { b ≤ result }
{
    if a < b { b } else { a }
}
