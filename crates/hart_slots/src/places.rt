ghost use Rattle.std.specs.Prelude.{◌≡◌, ◌+◌, take, drop};

/// The elements before a place.
pub(crate) fn before<T>(items: &[T], place: u8) -> &[T]
    ensures value { result.now ≡ take place items.now }
{
    &items[..items.len().min(usize::from(place))]
}

/// The elements behind a place.
pub(crate) fn behind<T>(items: &[T], place: u8) -> &[T]
    ensures value { result.now ≡ drop (place + 1) items.now }
{
    &items[items.len().min(usize::from(place) + 1)..]
}
