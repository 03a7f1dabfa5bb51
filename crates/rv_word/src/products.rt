ghost use Rattle.guest_words.specs.Arithmetic;
ghost use Rattle.guest_words.specs.Word.{word_of};
ghost use Rattle.std.specs.Int.{int_shr};
ghost use Rattle.std.specs.Prelude.{◌≡◌};

use crate::readings::{signed, word_of};

/// a times b modulo 2^64 (MUL).
#[inline(always)]
pub fn product(a: u64, b: u64) -> u64
    ensures { result ≡ Arithmetic.product a b }
{
    a.wrapping_mul(b)
}

/// A product divided by 2^64, rounded down.
fn upper_half(product: i128) -> u64
    ensures { result ≡ word_of (int_shr product 64) }
{
    word_of((product >> 64) as i64)
}

/// The product of both signed readings divided by 2^64, rounded down (MULH).
#[inline(always)]
pub fn high_signed(a: u64, b: u64) -> u64
    ensures { result ≡ Arithmetic.high_signed a b }
{
    upper_half(i128::from(signed(a)) * i128::from(signed(b)))
}

/// The product of a signed and b unsigned divided by 2^64, rounded down (MULHSU).
#[inline(always)]
pub fn high_mixed(a: u64, b: u64) -> u64
    ensures { result ≡ Arithmetic.high_mixed a b }
{
    upper_half(i128::from(signed(a)) * i128::from(b))
}

/// The product of both unsigned readings divided by 2^64 (MULHU).
#[inline(always)]
pub fn high_unsigned(a: u64, b: u64) -> u64
    ensures { result ≡ Arithmetic.high_unsigned a b }
{
    ((u128::from(a) * u128::from(b)) >> 64) as u64
}
