//! The walk.

ghost use Rattle.std.specs.Prelude.{◌≡◌, []};
ghost use Rattle.cliques.specs.Paths.{MayStand};
ghost use Rattle.completion.specs.Checks.{maximal_fault};
ghost use Rattle.completion.specs.Standings.{Clean, members_of, standing_of};
ghost use Rattle.model.specs.Steps.{StepsTo, reading};
ghost use Rattle.std.specs.Result.{result_err};
ghost use Rattle.walk.specs.Keeps.{Checked, SteppedFrom, resumed_from};
ghost use Rattle.walk.specs.Single.{clean_single, may_stand_single};

use crate::climb::next_set;
use completion::{Standing, maximal_fault};
use pairs::PairTable;
use refusal::{Layer, Reason, Refusal};

// The set given, as it is kept, or why it is refused. The public call tells a fault or none, so it is no `?`.
fn checked<T: PairTable>(table: &T, set: &[u16]) -> Result<Standing, Refusal>
    ensures { Checked (T.PairTable.meaning table.now) set.now result }
{
    if let Some(refusal) = maximal_fault(table, set) {
        return Err(refusal);
    }
    Ok(Standing::of(set))
}

/// A walk over the maximal cliques of a table, in the order of their paths. It stands before the first set or at a set, and
/// keeps that set and nothing else: walks with equal tables and equal standing sets are equal. It has the table until it is
/// put away.
pub struct Walk<T: PairTable> {
    table: T,
    standing: Standing,
    pub ghost clean: { Clean standing } by { clean_single standing },
    pub ghost sound: { MayStand (T.PairTable.meaning table) (members_of standing) } by { may_stand_single (T.PairTable.meaning table) (members_of standing) },
}

impl<T: PairTable> Walk<T> {
    ghost use Rattle.walk.specs.Whole.{IsWhole};

    /// Starts a walk before the first set.
    pub fn new(table: T) -> Walk<T>
        ensures table { result.table ≡ table }
        ensures standing { result.standing ≡ standing_of [] }
    {
        Walk {
            table,
            standing: Standing::empty(),
        }
    }

    /// Goes on to the next set and tells how many members it has. Refuses where no set is left (`Exhausted`), and then
    /// stands where it stood.
    pub fn step(&mut self) -> Result<usize, Refusal>
        ensures table { self.new.table ≡ self.old.table }
        ensures kept { SteppedFrom self.old.standing result self.new.standing }
        ensures next { StepsTo (T.PairTable.meaning self.old.table) (members_of self.old.standing) result (members_of self.new.standing) }
    {
        let Some(set) = next_set(&self.table, &self.standing) else {
            return Err(Refusal::new(Reason::Exhausted, Layer::Walk, 0));
        };
        self.standing = set;
        Ok(self.standing.members().len())
    }

    /// Copies the standing set to the front of `out` and tells how many members it has; what lies beyond stays. Refuses
    /// where no set stands (`NothingStanding`), and an `out` that is too short (`ShortSpace`); then `out` is as it was.
    pub fn read(&self, out: &mut [u16]) -> Result<usize, Refusal>
        ensures answer { result ≡ (reading (members_of self.now.standing) out.old).answer }
        ensures space { out.new ≡ (reading (members_of self.now.standing) out.old).space }
    {
        if self.standing.members().is_empty() {
            return Err(Refusal::new(Reason::NothingStanding, Layer::Walk, 0));
        }
        self.standing.copy_out(out)
    }

    /// Stands at the set given. Refuses a list that is empty, does not rise or leaves the table (`BadList`), one with two
    /// members that are no partners (`NotPartners`), and a set that a place can join (`NotMaximal`); then it stands where it
    /// stood.
    pub fn resume(&mut self, set: &[u16]) -> Result<(), Refusal>
        ensures answer { result_err result ≡ maximal_fault (T.PairTable.meaning self.old.table) set.now }
        ensures table { self.new.table ≡ self.old.table }
        ensures stands { self.new.standing ≡ resumed_from (maximal_fault (T.PairTable.meaning self.old.table) set.now) self.old.standing set.now }
    {
        self.standing = checked(&self.table, set)?;
        Ok(())
    }

    /// What the walk keeps: the set that it stands at, or none. With the table this is the whole walk.
    pub fn standing(&self) -> &Standing
        ensures standing { result.now ≡ self.now.standing }
        ensures whole { IsWhole self.now }
        ensures clean { Clean result.now }
        ensures sound { MayStand (T.PairTable.meaning self.now.table) (members_of result.now) }
    {
        &self.standing
    }

    /// Ends the walk and gives the table back.
    pub fn put_away(self) -> T
        ensures { result ≡ self.table }
    {
        let Walk { table, standing: _ } = self;
        table
    }
}
