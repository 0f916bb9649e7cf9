use completion::Standing;

/// What a walk kept after the calls of a run, and what steps alone gave from there.
// The count is told whether or not the sets are all, so an Option could not hold the two.
#[derive(Clone, Copy, PartialEq, Eq, Debug)]
pub struct Rest {
    /// What the walk kept after the calls.
    pub kept: Standing,
    /// How many sets were put into the room.
    pub count: usize,
    /// Whether these are all that were left.
    pub all: bool,
}
