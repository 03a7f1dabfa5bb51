ghost use Rattle.std.specs.Prelude.{◌≡◌, ◌<◌, All};

use guest_words::Bytes;

/// The bytes of the `Vec`, which is kept as it is.
pub(crate) fn octets(items: Vec<u8>) -> Bytes
    ensures list { result ≡ items.items }
    ensures below { All (λ b. b < 256) result }
{
    as_typed(&items);
    Bytes::of(items)
}

/// Contracts see a byte as a number; its type says that it is below 256.
fn as_typed(items: &[u8])
    ensures below { All (λ b. b < 256) items.now }
{
    let _ = items;
}
