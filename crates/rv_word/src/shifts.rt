ghost use Rattle.guest_words.specs.Arithmetic;
ghost use Rattle.std.specs.Prelude.{◌≡◌};

use crate::readings::{low_32, signed, signed_32, sx32, word_of};

/// a shifted left by the low 6 bits of n (SLL).
#[inline(always)]
pub fn shift_left(a: u64, n: u64) -> u64
    ensures { result ≡ Arithmetic.shift_left a n }
{
    a << (n % 64)
}

/// a shifted right by the low 6 bits of n (SRL).
#[inline(always)]
pub fn shift_right(a: u64, n: u64) -> u64
    ensures { result ≡ Arithmetic.shift_right a n }
{
    a >> (n % 64)
}

/// a shifted right by the low 6 bits of n, with copies of its sign from above (SRA).
#[inline(always)]
pub fn shift_right_signed(a: u64, n: u64) -> u64
    ensures { result ≡ Arithmetic.shift_right_signed a n }
{
    word_of(signed(a) >> (n % 64))
}

/// The low 32 bits of a shifted left by the low 5 bits of n, sign-extended (SLLW).
#[inline(always)]
pub fn shift_left_32(a: u64, n: u64) -> u64
    ensures { result ≡ Arithmetic.shift_left_32 a n }
{
    sx32(u64::from(low_32(a) << (n % 32)))
}

/// The low 32 bits of a shifted right by the low 5 bits of n, sign-extended (SRLW).
#[inline(always)]
pub fn shift_right_32(a: u64, n: u64) -> u64
    ensures { result ≡ Arithmetic.shift_right_32 a n }
{
    sx32(u64::from(low_32(a) >> (n % 32)))
}

/// The low 32 bits of a shifted right by the low 5 bits of n, with copies of their sign (SRAW).
#[inline(always)]
pub fn shift_right_signed_32(a: u64, n: u64) -> u64
    ensures { result ≡ Arithmetic.shift_right_signed_32 a n }
{
    word_of(i64::from(signed_32(a) >> (n % 32)))
}
