ghost use Rattle.std.specs.Prelude.{◌≡◌};
ghost use Rattle.guest_words.specs.Word;

/// The low 32 bits of a word.
#[inline(always)]
pub(crate) fn low_32(word: u64) -> u32
    ensures value { result ≡ Word.low_32 word }
{
    (word % (1 << 32)) as u32
}

/// A word read as two's complement.
#[inline(always)]
pub(crate) fn signed(word: u64) -> i64
    ensures value { result ≡ Word.signed word }
{
    word.cast_signed()
}

/// The low 32 bits of a word read as two's complement.
#[inline(always)]
pub(crate) fn signed_32(word: u64) -> i32
    ensures value { result ≡ Word.signed_32 word }
{
    low_32(word).cast_signed()
}

/// The word whose signed reading is a number.
#[inline(always)]
pub(crate) fn word_of(value: i64) -> u64
    ensures value { result ≡ Word.word_of value }
{
    value.cast_unsigned()
}
