//! Tests on lent lists of places.

ghost use Rattle.std.specs.Prelude.{◌≡◌};
ghost use Rattle.pairs.specs.Checks.{stands};

// Whether the place stands in the list, from end to end: a selection's list does not rise, and no type says that these do.
pub(crate) fn stands(list: &[u16], place: usize) -> bool
    ensures { result ≡ stands list.now place }
{
    list.iter().any(|&entry| entry as usize == place)
}
