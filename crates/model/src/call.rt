/// A call on a walk.
#[derive(Clone, Copy, PartialEq, Eq, Debug)]
pub enum Call {
    /// Goes on to the next set.
    Step,
    /// Copies the standing set to the front of the caller's space.
    Read,
    /// Stands at the set in the caller's space.
    Resume,
}
