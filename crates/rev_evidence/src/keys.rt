//! Keys side by side.
ghost use Rattle.std.specs.Prelude.{◌≡◌};
ghost use Rattle.rev_model.specs.Track.{same_key};

use rev_items::Key;
use std::alloc::Allocator;

/// Whether two keys are the same.
pub fn is_key<A: Allocator, B: Allocator>(a: &Key<A>, b: &Key<B>) -> bool
    ensures { result ≡ same_key a.now b.now }
{
    a.is_same(b)
}
