//! Partner lists: a pair table over two lent spaces.

ghost use Rattle.std.specs.Prelude.{◌≡◌, length, IfOk};
ghost use Rattle.pairs.specs.Checks.{first_fault};
ghost use Rattle.pairs.specs.Lists.{part, list_end, list_start, list_of, rising, named_back, list_fault, side_fault, lists_fault, lists_meaning, Listed, lists_lawful};
ghost use Rattle.std.specs.Result.{result_err};

use super::checks::stands;
use super::table::PairTable;
use refusal::{Layer, Reason, Refusal};

/// For each place the list of its partners: the lists stand end to end in one lent space, the end of each in another.
/// 16 bits hold every end, since 256 lists of different places have at most 65,280 entries. Both spaces are the caller's: the
/// library has no heap.
#[derive(Drop)]
pub struct PartnerLists<'a> {
    ends: &'a [u16],
    entries: &'a [u16],
}

// Whether the entries rise, and all are below the size. A list with more entries than places does not, and is not read.
fn is_rising(list: &[u16], size: usize) -> bool
    ensures { result ≡ rising size 0 list.now }
{
    if list.len() > size {
        return false;
    }
    list.is_sorted_by(|a, b| a < b) && list.iter().all(|&place| (place as usize) < size)
}

impl<'a> PartnerLists<'a> {
    /// Makes a table of as many places as there are ends, by the lists between them. Refuses a 257th end
    /// (`Reason::TooMany`); then the first list whose end is below the one before (`Reason::BadList`) or past the entries
    /// (`Reason::ShortSpace`), whose entries do not rise or are no places (`Reason::BadList`), or that names its own place
    /// (`Reason::SelfPair`); then the first list that names a place which does not name it back (`Reason::OneSided`). An
    /// empty list is no fault.
    pub fn new(ends: &'a [u16], entries: &'a [u16]) -> Result<PartnerLists<'a>, Refusal>
        ensures refusal { result_err result ≡ lists_fault ends.now entries.now }
        ensures spaces { IfOk result (λ t. (t.ends.now ≡ ends.now) × (t.entries.now ≡ entries.now)) }
        ensures meaning { IfOk result (λ t. Listed ends.now entries.now (lists_meaning t.ends.now t.entries.now)) }
    {
        // The first fault is searched for, so it is told as an `Option` until here.
        let lists = PartnerLists { ends, entries };
        if let Some(refusal) = lists.fault() {
            return Err(refusal);
        }
        Ok(lists)
    }

    // Why the lists are refused, or none.
    fn fault(&self) -> Option<Refusal>
        ensures { result ≡ lists_fault self.now.ends.now self.now.entries.now }
    {
        if self.ends.len() > 256 {
            return Some(Refusal::new(Reason::TooMany, Layer::Table, 256));
        }
        // No `or_else`: of a closure that borrows a struct with a lifetime, a method that takes an `FnOnce`, as those of
        // `Option`, ensures nothing; an iterator's takes an `FnMut`, and does.
        match self.first_list_fault() {
            None => self.first_side_fault(),
            first => first,
        }
    }

    // The first fault of a list by itself.
    fn first_list_fault(&self) -> Option<Refusal>
        ensures { result ≡ first_fault (list_fault self.now.ends.now self.now.entries.now) (length self.now.ends.now) }
    {
        (0..self.ends.len()).find_map(|u| self.list_fault(u))
    }

    // The first list that is not named back.
    fn first_side_fault(&self) -> Option<Refusal>
        ensures { result ≡ first_fault (side_fault self.now.ends.now self.now.entries.now) (length self.now.ends.now) }
    {
        (0..self.ends.len()).find_map(|u| self.side_fault(u))
    }

    // What is wrong with the list of `u` by itself.
    fn list_fault(&self, u: usize) -> Option<Refusal>
        ensures { result ≡ list_fault self.now.ends.now self.now.entries.now u }
    {
        let reason = if self.end(u) < self.start(u) {
            Reason::BadList
        } else if self.end(u) > self.entries.len() {
            Reason::ShortSpace
        } else if !is_rising(self.list(u), self.ends.len()) {
            Reason::BadList
        } else if stands(self.list(u), u) {
            Reason::SelfPair
        } else {
            return None;
        };
        Some(Refusal::new(reason, Layer::Table, u))
    }

    // Whether the list of `u` names a place that does not name `u` back.
    fn side_fault(&self, u: usize) -> Option<Refusal>
        ensures { result ≡ side_fault self.now.ends.now self.now.entries.now u }
    {
        (!self.is_named_back(u)).then(|| Refusal::new(Reason::OneSided, Layer::Table, u))
    }

    // Whether each place that the list of `u` names has `u` in its own list.
    fn is_named_back(&self, u: usize) -> bool
        ensures { result ≡ named_back self.now.ends.now self.now.entries.now u (list_of self.now.ends.now self.now.entries.now u) }
    {
        self.list(u)
            .iter()
            .all(|&v| stands(self.list(v as usize), u))
    }

    // The list of `u`, as far as there are entries.
    fn list(&self, u: usize) -> &'a [u16]
        ensures { result.now ≡ list_of self.now.ends.now self.now.entries.now u }
    {
        let end = self.end(u).min(self.entries.len());
        &self.entries[self.start(u).min(end)..end]
    }

    // Where the list of `u` begins: where the one before it ends, and the first at 0.
    fn start(&self, u: usize) -> usize
        ensures { result ≡ list_start self.now.ends.now u }
    {
        if u == 0 { 0 } else { self.end(u - 1) }
    }

    // Where the list of `u` ends. From the size on no list stands, and 0, where the first begins, leaves an empty one.
    fn end(&self, u: usize) -> usize
        ensures { result ≡ list_end self.now.ends.now u }
    {
        self.ends.get(u).map_or(0, |&end| end as usize)
    }
}

/// Two places are partners when each stands in the other's list; of checked lists, one says it for both.
impl PairTable for PartnerLists<'_> {
    ghost meaning = { λ t. lists_meaning t.ends.now t.entries.now };

    ghost lawful = { λ t. lists_lawful t.ends.now t.entries.now };

    fn size(&self) -> usize {
        self.ends.len().min(256)
    }

    fn partners(&self, u: usize, v: usize) -> bool {
        let size = self.size();
        u < size && v < size && u != v && stands(self.list(u), v) && stands(self.list(v), u)
    }
}
