//! A set as it is kept.

ghost use Rattle.std.specs.Prelude.{◌≡◌, ◌<◌, ◌≤◌, ◌^◌, ℕ, Bool, [], ◌∷◌, ◌++◌, length, take};
ghost use Rattle.cliques.specs.Sets.{filter};
ghost use Rattle.completion.specs.Answers.{copied};
ghost use Rattle.completion.specs.Standings.{Clean, members_of, standing_of};

use refusal::{Layer, Reason, Refusal};

/// A set of places, or none: at most 256 members at the front, zeros after them. A fixed array and a count, since the library
/// has no heap. That zeros follow is no fact of this type: it would cite `standing_of`, which builds the type; a walk's type
/// has it.
#[derive(Clone, Copy, PartialEq, Eq, Debug)]
pub struct Standing {
    members: [u16; 256],
    count: usize,
}

impl Standing {
    /// A set without members.
    pub fn empty() -> Standing
        ensures { result ≡ standing_of [] }
    {
        Standing {
            members: [0; 256],
            count: 0,
        }
    }

    /// The set that a list has, or its first 256 entries where it is longer.
    pub fn of(list: &[u16]) -> Standing
        ensures { result ≡ standing_of (take 256 list.now) }
    {
        let mut members = [0; 256];
        let count = list.len().min(256);
        members[..count].copy_from_slice(&list[..count]);
        Standing { members, count }
    }

    /// The members.
    pub fn members(&self) -> &[u16]
        ensures members { result.now ≡ members_of self.now }
        ensures few { length result.now ≤ 256 }
    {
        &self.members[..self.count.min(256)]
    }

    // Puts a member at the end, where there is room for one more.
    pub(crate) fn push(&mut self, x: u16)
        ensures { Clean self.old → self.new ≡ standing_of (take 256 (members_of self.old ++ (x ∷ []))) }
    {
        if self.count < 256 {
            self.members[self.count] = x;
            self.count += 1;
        }
    }

    /// The set with one member more at its end; where it has 256, there is no room for another, and it is the set itself.
    pub fn with(&self, x: u16) -> Standing
        ensures { result ≡ standing_of (take 256 (members_of self.now ++ (x ∷ []))) }
    {
        let mut set = Standing::of(self.members());
        set.push(x);
        set
    }

    // The members that pass a test.
    pub(crate) fn filter<P: Fn(u16) -> bool>(&self, passes: P) -> Standing
        requires { P.IsAlwaysCallable passes }
        ensures { (p : ℕ → Bool) → ((x : ℕ) (b : Bool) → x < 2 ^ 16 → P.post passes x b → b ≡ p x) → result ≡ standing_of (filter p (members_of self.now)) }
    {
        let mut part = Standing::empty();
        for &x in self.members() {
            if passes(x) {
                part.push(x);
            }
        }
        part
    }

    /// Copies the members to the front of `out` and tells how many there are; what lies beyond stays. Refuses an `out` that
    /// is too short (`ShortSpace`), and then leaves it as it was.
    pub fn copy_out(&self, out: &mut [u16]) -> Result<usize, Refusal>
        ensures answer { result ≡ (copied (members_of self.now) out.old).answer }
        ensures space { out.new ≡ (copied (members_of self.now) out.old).space }
    {
        let members = self.members();
        if out.len() < members.len() {
            return Err(Refusal::new(Reason::ShortSpace, Layer::Walk, 0));
        }
        out[..members.len()].copy_from_slice(members);
        Ok(members.len())
    }
}
