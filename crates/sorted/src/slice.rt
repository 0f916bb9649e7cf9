//! The sorted slice: the lent slice, and how many records it holds.

ghost use Rattle.std.specs.Prelude.{◌≡◌, ◌+◌, ◌-◌, ◌≤◌, false, [], length, take, drop, IfSome, is_ok, if◌then◌else◌};
ghost use Rattle.refusal.specs.Refusals.{refused};
ghost use Rattle.sorted.specs.Keyed.{Rising, leading, first_of, without, of_key, inserted, insert_answer};
ghost use Rattle.sorted.specs.Single.{rising_single};
ghost use Rattle.std.specs.Option.{ok_or};

use super::keys::{Keyed, TotalOrder};
use super::lists::{find_in, insert_in, pop_in, remove_in};
use refusal::{Layer, Reason, Refusal};

/// Records at the front of a lent slice; what stands behind them is free space. Every sorted slice holds its records in
/// strictly rising order of key.
#[derive(Drop)]
pub struct SortedSlice<'a, T: Keyed> {
    records: &'a mut [T],
    count: usize,
    pub ghost within: { count ≤ length records.now },
    pub ghost rising: { Rising T.Key.Order.upto T.Keyed.keyed (take count records.now) } by { rising_single T.Key.Order.upto T.Keyed.keyed (take count records.now) },
}

impl<'a, T: Keyed> SortedSlice<'a, T>
where
    T::Key: TotalOrder,
{
    ghost use Rattle.sorted.specs.Held.{held, room, has_room, Same};

    /// Makes a sorted slice that holds nothing. What stood in the lent slice is free space.
    pub fn new(records: &'a mut [T]) -> SortedSlice<'a, T>
        ensures held { held result ≡ [] }
        ensures count { result.count ≡ 0 }
        ensures room { room result ≡ length records.old }
    {
        SortedSlice { records, count: 0 }
    }

    /// Tells how many records are held.
    pub fn len(&self) -> usize
        ensures { result ≡ length (held self.now) }
    {
        self.count
    }

    /// Finds the record that has the key, or `None` where no record held has it.
    pub fn find(&self, key: T::Key) -> Option<T>
        ensures answer { result ≡ first_of (of_key T.Key.Order.upto T.Keyed.keyed key) (held self.now) }
        ensures key { IfSome result (λ y. T.Keyed.keyed y ≡ key) }
    {
        find_in(&self.records[..self.count], key)
    }

    /// Inserts the item at the place of its key. Refuses a key that is held already
    /// (`Reason::Repeated`), and then a slice without room (`Reason::Full`); a refusal changes nothing.
    pub fn insert(&mut self, item: T) -> Result<(), Refusal>
        ensures answer { result ≡ insert_answer (first_of (of_key T.Key.Order.upto T.Keyed.keyed (T.Keyed.keyed item)) (held self.old)) (has_room self.old) }
        ensures held { held self.new ≡ (if is_ok result then inserted T.Key.Order.upto T.Keyed.keyed item (held self.old) else held self.old) }
        ensures count { self.new.count ≡ (if is_ok result then self.old.count + 1 else self.old.count) }
        ensures kept { is_ok result ≡ false → Same self.old self.new }
        ensures room { room self.new ≡ room self.old }
    {
        if self.find(item.key()).is_some() {
            return Err(Refusal::new(Reason::Repeated, Layer::Shelf, 0));
        }
        insert_in(self.records, self.count, item)?;
        self.count += 1;
        Ok(())
    }

    /// Takes out the record with the smallest key, which stands first. Refuses where nothing is held
    /// (`Reason::Missing`), and changes nothing then.
    pub fn pop_first(&mut self) -> Result<T, Refusal>
        ensures answer { result ≡ ok_or (leading (held self.old)) (refused Reason.Missing Layer.Shelf 0) }
        ensures held { held self.new ≡ drop 1 (held self.old) }
        ensures count { self.new.count ≡ (if is_ok result then length (held self.old) - 1 else self.old.count) }
        ensures kept { is_ok result ≡ false → Same self.old self.new }
        ensures room { room self.new ≡ room self.old }
    {
        let taken = pop_in(self.records, self.count).ok_or(missing())?;
        self.count -= 1;
        Ok(taken)
    }

    /// Takes out the record that has the key. Refuses a key that no record held has
    /// (`Reason::Missing`), and changes nothing then.
    pub fn remove(&mut self, key: T::Key) -> Result<T, Refusal>
        ensures answer { result ≡ ok_or (first_of (of_key T.Key.Order.upto T.Keyed.keyed key) (held self.old)) (refused Reason.Missing Layer.Shelf 0) }
        ensures held { held self.new ≡ without (of_key T.Key.Order.upto T.Keyed.keyed key) (held self.old) }
        ensures count { self.new.count ≡ (if is_ok result then length (held self.old) - 1 else self.old.count) }
        ensures kept { is_ok result ≡ false → Same self.old self.new }
        ensures room { room self.new ≡ room self.old }
    {
        let taken = remove_in(self.records, self.count, key).ok_or(missing())?;
        self.count -= 1;
        Ok(taken)
    }
}

// Why a call that finds no record to take refuses.
fn missing() -> Refusal
    ensures { result ≡ refused Reason.Missing Layer.Shelf 0 }
{
    Refusal::new(Reason::Missing, Layer::Shelf, 0)
}
