ghost use Rattle.guest_words.specs.Arithmetic;
ghost use Rattle.std.specs.Prelude.{◌≡◌};

use crate::readings::{low_32, signed, signed_32, sx32, word_of};

/// The signed quotient, rounded to zero; -1 where b is 0 (DIV).
#[inline(always)]
pub fn quotient(a: u64, b: u64) -> u64
    ensures { result ≡ Arithmetic.quotient a b }
{
    if b == 0 {
        u64::MAX
    } else {
        word_of(signed(a).wrapping_div(signed(b)))
    }
}

/// The signed remainder, with the sign of a; a where b is 0 (REM).
#[inline(always)]
pub fn remainder(a: u64, b: u64) -> u64
    ensures { result ≡ Arithmetic.remainder a b }
{
    if b == 0 {
        a
    } else {
        word_of(signed(a).wrapping_rem(signed(b)))
    }
}

/// The unsigned quotient; all ones where b is 0 (DIVU).
#[inline(always)]
pub fn quotient_unsigned(a: u64, b: u64) -> u64
    ensures { result ≡ Arithmetic.quotient_unsigned a b }
{
    if b == 0 { u64::MAX } else { a / b }
}

/// The unsigned remainder; a where b is 0 (REMU).
#[inline(always)]
pub fn remainder_unsigned(a: u64, b: u64) -> u64
    ensures { result ≡ Arithmetic.remainder_unsigned a b }
{
    if b == 0 { a } else { a % b }
}

/// The signed quotient of the low 32 bits, sign-extended; -1 where b's are 0 (DIVW).
#[inline(always)]
pub fn quotient_32(a: u64, b: u64) -> u64
    ensures { result ≡ Arithmetic.quotient_32 a b }
{
    if low_32(b) == 0 {
        u64::MAX
    } else {
        word_of(i64::from(signed_32(a).wrapping_div(signed_32(b))))
    }
}

/// The signed remainder of the low 32 bits, sign-extended; a's where b's are 0 (REMW).
#[inline(always)]
pub fn remainder_32(a: u64, b: u64) -> u64
    ensures { result ≡ Arithmetic.remainder_32 a b }
{
    if low_32(b) == 0 {
        sx32(a)
    } else {
        word_of(i64::from(signed_32(a).wrapping_rem(signed_32(b))))
    }
}

/// The unsigned quotient of the low 32 bits, sign-extended; all ones where b's are 0 (DIVUW).
#[inline(always)]
pub fn quotient_unsigned_32(a: u64, b: u64) -> u64
    ensures { result ≡ Arithmetic.quotient_unsigned_32 a b }
{
    if low_32(b) == 0 {
        u64::MAX
    } else {
        sx32(u64::from(low_32(a) / low_32(b)))
    }
}

/// The unsigned remainder of the low 32 bits, sign-extended; a's where b's are 0 (REMUW).
#[inline(always)]
pub fn remainder_unsigned_32(a: u64, b: u64) -> u64
    ensures { result ≡ Arithmetic.remainder_unsigned_32 a b }
{
    if low_32(b) == 0 {
        sx32(a)
    } else {
        sx32(u64::from(low_32(a) % low_32(b)))
    }
}
