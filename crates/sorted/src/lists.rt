//! The work on the lent slice: its first `count` records are the ones held. These are functions over any slice of records, so
//! they ask again what the type of a sorted slice keeps.

ghost use Rattle.std.specs.Prelude.{◌≡◌, ◌+◌, ◌-◌, ◌<◌, ◌≤◌, true, false, length, take, drop, is_some, IfSome, is_ok, Some, nat_lt, slice_get};
ghost use Rattle.sorted.specs.Keyed.{Rising, comparison, front, leading, first_of, without, up_to_key, of_key, inserted, left, room_answer};
ghost use Rattle.std.specs.List.{insert as opened, remove, position};

use super::keys::{Keyed, Order, TotalOrder};
use refusal::{Layer, Reason, Refusal};
use std::cmp::Ordering;

// How a key compares with another, as the library's search by halves asks.
fn compare<K: Order>(a: &K, b: &K) -> Ordering
    ensures { result ≡ comparison K.Order.upto a.now b.now }
{
    if !a.at_most(b) {
        Ordering::Greater
    } else if b.at_most(a) {
        Ordering::Equal
    } else {
        Ordering::Less
    }
}

// The place after the leading records whose keys come before the key or tie with it.
fn place_after<T: Keyed>(records: &[T], key: T::Key) -> usize
    requires { Rising T.Key.Order.upto T.Keyed.keyed records.now }
    ensures { result ≡ front (up_to_key T.Key.Order.upto T.Keyed.keyed key) records.now }
{
    records.partition_point(|record| record.key().at_most(&key))
}

// The place of the record that has the key.
fn place_of<T: Keyed>(records: &[T], key: T::Key) -> Option<usize>
where
    T::Key: TotalOrder,
    requires { Rising T.Key.Order.upto T.Keyed.keyed records.now }
    ensures { result ≡ position (of_key T.Key.Order.upto T.Keyed.keyed key) records.now }
{
    records
        .binary_search_by(|record| compare(&record.key(), &key))
        .ok()
}

// Puts the item at the place `at` of the first `count` records.
fn insert_at<T: Copy>(records: &mut [T], count: usize, at: usize, item: T)
    requires place { at ≤ count }
    requires room { count < length records.old }
    ensures { take (count + 1) records.new ≡ opened (take count records.old) at item }
{
    records[count] = item;
    records[at..count + 1].rotate_right(1);
}

// Takes the record at the place `at` out of the first `count`.
fn remove_at<T: Copy>(records: &mut [T], count: usize, at: usize) -> T
    requires place { at < count }
    requires room { count ≤ length records.old }
    ensures answer { Some result ≡ slice_get (take count records.old) at }
    ensures held { take (count - 1) records.new ≡ remove (take count records.old) at }
{
    let taken = records[at];
    records[at..count].rotate_left(1);
    taken
}

// Inserts the item after the records whose keys come before its key or tie with it; refuses a full slice.
pub(crate) fn insert_in<T: Keyed>(records: &mut [T], count: usize, item: T) -> Result<(), Refusal>
    requires { Rising T.Key.Order.upto T.Keyed.keyed (take count records.old) }
    ensures answer { result ≡ room_answer (nat_lt count (length records.old)) }
    ensures held { is_ok result ≡ true → take (count + 1) records.new ≡ inserted T.Key.Order.upto T.Keyed.keyed item (take count records.old) }
    ensures kept { is_ok result ≡ false → records.new ≡ records.old }
{
    if count >= records.len() {
        return Err(Refusal::new(Reason::Full, Layer::Shelf, 0));
    }
    let at = place_after(&records[..count], item.key());
    insert_at(records, count, at, item);
    Ok(())
}

// The record that has the key.
pub(crate) fn find_in<T: Keyed>(records: &[T], key: T::Key) -> Option<T>
where
    T::Key: TotalOrder,
    requires { Rising T.Key.Order.upto T.Keyed.keyed records.now }
    ensures answer { result ≡ first_of (of_key T.Key.Order.upto T.Keyed.keyed key) records.now }
    ensures key { IfSome result (λ y. T.Keyed.keyed y ≡ key) }
{
    let at = place_of(records, key)?;
    Some(records[at])
}

// Takes out the first record.
pub(crate) fn pop_in<T: Copy>(records: &mut [T], count: usize) -> Option<T>
    requires { count ≤ length records.old }
    ensures answer { result ≡ leading (take count records.old) }
    ensures held { take (left result count) records.new ≡ drop 1 (take count records.old) }
    ensures kept { is_some result ≡ false → records.new ≡ records.old }
{
    if count == 0 {
        return None;
    }
    Some(remove_at(records, count, 0))
}

// Takes out the record that has the key.
pub(crate) fn remove_in<T: Keyed>(records: &mut [T], count: usize, key: T::Key) -> Option<T>
where
    T::Key: TotalOrder,
    requires within { count ≤ length records.old }
    requires rising { Rising T.Key.Order.upto T.Keyed.keyed (take count records.old) }
    ensures answer { result ≡ first_of (of_key T.Key.Order.upto T.Keyed.keyed key) (take count records.old) }
    ensures held { take (left result count) records.new ≡ without (of_key T.Key.Order.upto T.Keyed.keyed key) (take count records.old) }
    ensures kept { is_some result ≡ false → records.new ≡ records.old }
{
    let at = place_of(&records[..count], key)?;
    Some(remove_at(records, count, at))
}
