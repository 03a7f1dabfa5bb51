ghost use Rattle.std.specs.Prelude.{◌≡◌, ◌≤◌, ◌==◌, ℕ, length, drop, nat_lt, nat_le, position};
ghost use Rattle.std.specs.List.{before_first};
ghost use Rattle.std.specs.Str.{bytes_eq};
ghost use Rattle.guest_words.specs.Image.{contains};

/// How many bytes there are up to the last zero byte, or 0: a zero byte follows just the places
/// below that.
pub fn last_end(strings: &[u8]) -> usize
    ensures { (place : ℕ) → contains (drop place strings.now) 0 ≡ nat_lt place result }
{
    let mut end = 0;
    for (i, byte) in strings.iter().enumerate() {
        if *byte == 0 {
            end = i + 1;
        }
    }
    end
}

/// The place of the first zero byte.
fn zero_place(bytes: &[u8]) -> Option<usize>
    ensures { result ≡ position (λ b. b == 0) bytes.now }
{
    bytes.iter().position(|b| *b == 0)
}

/// The bytes before the first zero byte, or all where there is none.
pub fn before_zero(bytes: &[u8]) -> &[u8]
    ensures { result.now ≡ before_first (λ b. b == 0) bytes.now }
{
    match zero_place(bytes) {
        Some(place) => &bytes[..place],
        None => bytes,
    }
}

/// Whether the bytes before the first zero byte, or all where there is none, are this name, which
/// is no shorter than the bytes.
fn is_whole(bytes: &[u8], name: &[u8]) -> bool
    requires { length bytes.now ≤ length name.now }
    ensures { result ≡ bytes_eq (before_first (λ b. b == 0) bytes.now) name.now }
{
    bytes == name && !name.contains(&0)
}

/// Whether the bytes before the first zero byte, or all where there is none, are this name.
pub fn is_before_zero(bytes: &[u8], name: &[u8]) -> bool
    ensures { result ≡ bytes_eq (before_first (λ b. b == 0) bytes.now) name.now }
{
    match bytes.get(name.len()) {
        Some(end) => *end == 0 && is_whole(&bytes[..name.len()], name),
        None => is_whole(bytes, name),
    }
}

/// Whether a zero byte, or the end, comes after no more bytes than these.
pub fn ends_within(bytes: &[u8], longest: usize) -> bool
    ensures { result ≡ nat_le (length (before_first (λ b. b == 0) bytes.now)) longest }
{
    bytes.len() <= longest || bytes[..longest + 1].contains(&0)
}
