//! One function for each fact: its contract is the statement.

ghost use Rattle.worked.specs.Racks.{RacksHold, RacksLawful};

/// A graph given by pairs of two places below its size, at most 256, is lawful.
pub fn racks_lawful()
    ensures { RacksLawful }
{}

/// The definitions give the maximal cliques, completions, parent indices, paths and degeneracy orders that the worked racks
/// tell.
pub fn racks_hold()
    ensures { RacksHold }
{}
