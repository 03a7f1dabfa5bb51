ghost use Rattle.guest_words.specs.Word;
ghost use Rattle.std.specs.Prelude.{◌≡◌};

/// The low 32 bits of a word.
#[inline(always)]
pub fn low_32(word: u64) -> u32
    ensures { result ≡ Word.low_32 word }
{
    (word % (1 << 32)) as u32
}

/// A word read as two's complement.
#[inline(always)]
pub fn signed(word: u64) -> i64
    ensures { result ≡ Word.signed word }
{
    word.cast_signed()
}

/// The low 32 bits of a word read as two's complement.
#[inline(always)]
pub fn signed_32(word: u64) -> i32
    ensures { result ≡ Word.signed_32 word }
{
    low_32(word).cast_signed()
}

/// The word whose signed reading is a number.
#[inline(always)]
pub fn word_of(value: i64) -> u64
    ensures { result ≡ Word.word_of value }
{
    value.cast_unsigned()
}

/// The low 32 bits of a word, sign-extended to a word.
#[inline(always)]
pub fn sx32(word: u64) -> u64
    ensures { result ≡ Word.sx32 word }
{
    word_of(i64::from(signed_32(word)))
}
