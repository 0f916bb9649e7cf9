/// What an accepted call gave.
#[derive(Clone, Copy, PartialEq, Eq, Debug)]
pub enum Answer {
    /// How many members the set has that a step went to or a read copied.
    Count(usize),
    /// The walk stands at the set given.
    Resumed,
}
