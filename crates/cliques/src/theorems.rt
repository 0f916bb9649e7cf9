//! One function for each theorem: its contract is the statement.

ghost use Rattle.cliques.specs.Theorems.{ChildrenHold, ClimbsHold, CompletionsHold, IndicesHold, ListsHold, NextIsOne, PathsHold, ShortcutsHold, TestsHold};

/// Each test that stands beside a definition (maximal clique, head, child, order of paths) passes exactly where the definition holds.
pub fn tests_hold()
    ensures { TestsHold }
{}

/// The completion of a clique holds it, is a maximal clique, and is the lexicographically least one that holds it; the
/// completion of a maximal clique is itself.
pub fn completions_hold()
    ensures { CompletionsHold }
{}

/// Every maximal clique has exactly one parent index, and the roots are exactly the completions of the heads.
pub fn indices_hold()
    ensures { IndicesHold }
{}

/// Parent and child are inverse: a maximal clique that is no root is the child of its parent at its parent index, and the
/// child of a maximal clique at a place has that clique for its parent and that place for its parent index. The parent's
/// index is smaller.
pub fn children_hold()
    ensures { ChildrenHold }
{}

/// The path of a maximal clique goes on from its parent's path, rises strictly, and tells the clique.
pub fn paths_hold()
    ensures { PathsHold }
{}

/// How the next set is found: the first child above the parent index, or else on from the parent, and from a root on with
/// the heads.
pub fn climbs_hold()
    ensures { ClimbsHold }
{}

/// What comes next after a path is one: one maximal clique, or none.
pub fn next_is_one()
    ensures { NextIsOne }
{}

/// The list of all maximal cliques by rising path exists and is the only one; what comes next after a set is the next of
/// that list.
pub fn lists_hold()
    ensures { ListsHold }
{}

/// The tests that need no completion give what the definitions give.
pub fn shortcuts_hold()
    ensures { ShortcutsHold }
{}
