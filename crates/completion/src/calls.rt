//! The calls on a set that the caller gives.

ghost use Rattle.std.specs.Prelude.{◌≡◌};
ghost use Rattle.completion.specs.Answers.{completing, indexing, parenting};

use crate::barriers::Barriers;
use crate::checks::{check_clique, check_maximal};
use crate::gather::{completed, completed_below};
use crate::sets::smallest;
use crate::standing::Standing;
use pairs::PairTable;
use refusal::Refusal;

/// Writes the completion of a clique to the front of `out` and tells how many members it has; what lies beyond stays.
/// Refuses a list that is empty, does not rise or leaves the table (`BadList`), one with two members that are no partners
/// (`NotPartners`), and an `out` that is too short (`ShortSpace`); a refusal leaves `out` as it was.
pub fn complete<T: PairTable>(table: &T, set: &[u16], out: &mut [u16]) -> Result<usize, Refusal>
    ensures answer { result ≡ (completing (T.PairTable.meaning table.now) set.now out.old).answer }
    ensures space { out.new ≡ (completing (T.PairTable.meaning table.now) set.now out.old).space }
{
    check_clique(table, set)?;
    completed(table, set).copy_out(out)
}

/// Tells the parent index of a maximal clique: the smallest member with which the members up to it complete to the set.
/// Refuses what `complete` refuses of the list, and a set that a place can join (`NotMaximal`).
pub fn parent_index<T: PairTable>(table: &T, set: &[u16]) -> Result<usize, Refusal>
    ensures { result ≡ indexing (T.PairTable.meaning table.now) set.now }
{
    check_maximal(table, set)?;
    Ok(Barriers::of(table, set).largest as usize)
}

/// Writes the parent of a maximal clique to the front of `out` and tells how many members it has; what lies beyond stays.
/// At a root there is none, `out` stays and may have any length. Refuses what `parent_index` refuses, and an `out` that is
/// too short (`ShortSpace`); a refusal leaves `out` as it was.
pub fn parent<T: PairTable>(
    table: &T,
    set: &[u16],
    out: &mut [u16],
) -> Result<Option<usize>, Refusal>
    ensures answer { result ≡ (parenting (T.PairTable.meaning table.now) set.now out.old).answer }
    ensures space { out.new ≡ (parenting (T.PairTable.meaning table.now) set.now out.old).space }
{
    check_maximal(table, set)?;
    let index = Barriers::of(table, set).largest;
    if index == smallest(set) {
        return Ok(None);
    }
    let parent = completed_below(table, &Standing::of(set), index);
    parent.copy_out(out).map(Some)
}
