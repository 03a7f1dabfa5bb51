/// What is stored in place of a number that stood there.
pub trait Change {
    ghost use Rattle.std.specs.Prelude.{ℕ, ◌≡◌};

    /// The number that comes in place of another.
    ghost changed: { Self → ℕ → ℕ };

    fn changed(&self, old: u64) -> u64
        ensures value { result ≡ changed self.now old };
}
