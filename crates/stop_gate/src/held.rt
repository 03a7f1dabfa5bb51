//! What a gate knows of its value.
ghost use Rattle.std.specs.Prelude.{◌≡◌, ℕ, ◌^◌, ◌<◌, Bool};

/// A value that a gate can hold. The gate knows its length, whether it is over, and its origin.
pub trait Held: Drop {
    /// What the value began as: plain data, of which no value is made.
    type Origin;

    ghost length: { Self → ℕ };

    ghost over: { Self → Bool };

    ghost origin: { Self → Self.Origin };

    /// How long the value is. While it is in a gate it never gets shorter.
    fn length(&self) -> u64
        ensures value { result ≡ length self.now }
        ensures within { result < 2 ^ 62 };

    /// Whether the value is over. In a gate it stays so.
    fn over(&self) -> bool
        ensures value { result ≡ over self.now };
}
