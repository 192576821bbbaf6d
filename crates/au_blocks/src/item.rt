//! An item of a list that is lent.
ghost use Rattle.std.specs.Prelude.{◌≡◌, ◌<◌, Some, length, slice_get};

// The item at a place.
pub(crate) fn item<T>(items: &[T], place: usize) -> &T
    requires { place < length items.now }
    ensures { slice_get items.now place ≡ Some result.now }
{
    &items[place]
}
