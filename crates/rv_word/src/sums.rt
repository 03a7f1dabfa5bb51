ghost use Rattle.guest_words.specs.Arithmetic;
ghost use Rattle.std.specs.Prelude.{◌≡◌};

/// a + b modulo 2^64.
#[inline(always)]
pub fn sum(a: u64, b: u64) -> u64
    ensures { result ≡ Arithmetic.sum a b }
{
    a.wrapping_add(b)
}

/// a - b modulo 2^64.
#[inline(always)]
pub fn difference(a: u64, b: u64) -> u64
    ensures { result ≡ Arithmetic.difference a b }
{
    a.wrapping_sub(b)
}
