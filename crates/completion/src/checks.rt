//! What is wrong with a list of places that is given as a set.

ghost use Rattle.std.specs.Prelude.{◌≡◌, ◌<◌, ℕ, Bool, length};
ghost use Rattle.std.specs.Result.{result_err};
ghost use Rattle.completion.specs.Checks.{can_grow, maximal_fault, misplaced, refuse_if, set_fault, stranger};
ghost use Rattle.pairs.specs.Checks.{first_fault};

use crate::sets::partner_of_all;
use pairs::PairTable;
use refusal::{Layer, Reason, Refusal};

// Whether the entry at `i` is at or beyond the size, or is not above the one before it.
fn misplaced(size: usize, set: &[u16], i: usize) -> bool
    requires { i < length set.now }
    ensures { result ≡ misplaced size set.now i }
{
    set[i] as usize >= size || (i > 0 && set[i] <= set[i - 1])
}

// Whether the entry at `i` is no partner of some earlier one.
fn stranger<T: PairTable>(table: &T, set: &[u16], i: usize) -> bool
    requires { i < length set.now }
    ensures { result ≡ stranger (T.PairTable.meaning table.now) set.now i }
{
    !partner_of_all(table, set[i] as usize, &set[..i])
}

// Refuses the first entry at which a test holds. It goes by place, since a test reads the entries before it too.
fn check_entries<P: Fn(usize) -> bool>(
    count: usize,
    reason: Reason,
    fails: P,
) -> Result<(), Refusal>
    requires { (i : ℕ) → i < count → P.pre fails i }
    ensures { (p : ℕ → Bool) → ((i : ℕ) (b : Bool) → i < count → P.post fails i b → b ≡ p i) → result_err result ≡ first_fault (λ i. refuse_if (p i) reason i) count }
{
    match (0..count).position(fails) {
        Some(i) => Err(Refusal::new(reason, Layer::Walk, i)),
        None => Ok(()),
    }
}

// Refuses a list that is no clique.
pub(crate) fn check_clique<T: PairTable>(table: &T, set: &[u16]) -> Result<(), Refusal>
    ensures { result_err result ≡ set_fault (T.PairTable.meaning table.now) set.now }
{
    if set.is_empty() {
        return Err(Refusal::new(Reason::BadList, Layer::Walk, 0));
    }
    let size = table.size();
    check_entries(set.len(), Reason::BadList, |i| misplaced(size, set, i))?;
    check_entries(set.len(), Reason::NotPartners, |i| stranger(table, set, i))
}

// Whether some place is a partner of every entry.
fn can_grow<T: PairTable>(table: &T, set: &[u16]) -> bool
    ensures { result ≡ can_grow (T.PairTable.meaning table.now) set.now }
{
    (0..table.size()).any(|w| partner_of_all(table, w, set))
}

// Refuses a list that is no maximal clique.
pub(crate) fn check_maximal<T: PairTable>(table: &T, set: &[u16]) -> Result<(), Refusal>
    ensures { result_err result ≡ maximal_fault (T.PairTable.meaning table.now) set.now }
{
    check_clique(table, set)?;
    if can_grow(table, set) {
        return Err(Refusal::new(Reason::NotMaximal, Layer::Walk, 0));
    }
    Ok(())
}

/// Tells why a list is refused as a maximal clique, or `None`: what `complete` refuses of the list, and then a set that a
/// place can join (`NotMaximal`).
pub fn maximal_fault<T: PairTable>(table: &T, set: &[u16]) -> Option<Refusal>
    ensures { result ≡ maximal_fault (T.PairTable.meaning table.now) set.now }
{
    check_maximal(table, set).err()
}
