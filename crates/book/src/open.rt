//! Open books.

ghost use Rattle.std.specs.Prelude.{◌≡◌, false, if◌then◌else◌, nat_lt, slice_index_or};

use crate::sizes::CARDS;
use format::Rule;

/// What a book says besides its cards and pairs: its rule, if it has one, and which places are withdrawn, in a fixed array,
/// since the library has no heap.
#[derive(Clone, Copy, PartialEq, Eq, Debug)]
pub struct Notes {
    pub(crate) rule: Option<Rule>,
    pub(crate) withdrawn: [bool; CARDS],
}

impl Notes {
    // No rule, and no roll withdrawn. A constant, since an array of 256 has no `Default`.
    pub(crate) const NONE: Notes = Notes {
        rule: None,
        withdrawn: [false; CARDS],
    };
}

/// An open book: numbers alone. Its cards and pair marks lie in the caller's spaces, which come with each call.
#[derive(PartialEq, Eq, Debug, Drop)]
pub struct OpenBook {
    pub(crate) count: usize,
    pub(crate) notes: Notes,
}

impl OpenBook {
    /// How many cards the book has.
    pub fn count(&self) -> usize
        ensures { result ≡ self.now.count }
    {
        self.count
    }

    /// The rule by which rolls are partners, where the book has one.
    pub fn rule(&self) -> Option<Rule>
        ensures { result ≡ self.now.notes.rule }
    {
        self.notes.rule
    }

    /// Whether the roll at the place is withdrawn; none is from place 256 on.
    pub fn is_withdrawn(&self, place: usize) -> bool
        ensures { result ≡ (if nat_lt place 256 then slice_index_or self.now.notes.withdrawn place false else false) }
    {
        self.notes.withdrawn.get(place).copied().unwrap_or(false)
    }
}
