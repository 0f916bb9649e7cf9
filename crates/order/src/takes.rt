//! Taking the places one by one, each time one with the fewest partners among those left.

ghost use Rattle.std.specs.Prelude.{◌≡◌, ℕ, ◌+◌, ◌-◌, ◌<◌, ◌≤◌, true, false, length, set};
ghost use Rattle.order.specs.Lines.{waits_at, count_at, left, Lined, Tallied, Lowered, next_of, after_next};
ghost use Rattle.order.specs.Single.{lined_single};
ghost use Rattle.cliques.specs.Sets.{places};
ghost use Rattle.order.specs.Orders.{how_many, taken, most};
ghost use Rattle.sorted.specs.Held.{held, room};

use crate::tallies::Tallies;
use crate::waiting::Waiting;
use pairs::PairTable;
use sorted::SortedSlice;

// The tallies, and the places that wait in the order of their tallies.
#[derive(Drop)]
struct Line<'a> {
    tallies: Tallies,
    waiting: SortedSlice<'a, Waiting>,
    ghost lined: { Lined tallies.records (held waiting) } by { lined_single _ _ },
}

impl<'a> Line<'a> {
    // Every place waits, with the number of its partners.
    fn of_all<T: PairTable>(table: &T, space: &'a mut [Waiting]) -> Line<'a>
        requires { (T.meaning table.now).size ≤ length space.old }
        ensures tallied { let m = T.meaning table.now in Tallied m.size m.partners result.tallies.records (held result.waiting) }
        ensures left { let m = T.meaning table.now in left m.size result.tallies.records ≡ places m.size }
    {
        let mut line = Line {
            tallies: Tallies::new(),
            waiting: SortedSlice::new(space),
        };
        for place in 0..table.size() {
            line.begin(place as u8, count_partners(table, place));
        }
        line
    }

    // The place begins to wait, with that many partners.
    fn begin(&mut self, place: u8, partners: u16)
        requires idle { waits_at self.old.tallies.records place ≡ false }
        requires free { length (held self.old.waiting) < room self.old.waiting }
        ensures after { self.new.tallies.records ≡ set self.old.tallies.records place (record { partners = partners; waits = true }) }
        ensures longer { length (held self.new.waiting) ≡ length (held self.old.waiting) + 1 }
        ensures room { room self.new.waiting ≡ room self.old.waiting }
    {
        self.tallies.start(place, partners);
        let record = self.tallies.waiting(place);
        // Never refused, so the answer needs no look: by the contract the line is longer by one.
        let _ = self.waiting.insert(record);
    }

    // One partner less of the place waits; its record moves up in the line.
    fn lower(&mut self, place: u8)
        requires { waits_at self.old.tallies.records place ≡ true }
        ensures { self.new.tallies.records ≡ set self.old.tallies.records place (record { partners = count_at self.old.tallies.records place - 1; waits = true }) }
    {
        // Neither call is ever refused, so the answers need no look: after a refusal the line would not hold what it must.
        let before = self.tallies.waiting(place);
        let _ = self.waiting.remove(before);
        self.tallies.lower(place);
        let after = self.tallies.waiting(place);
        let _ = self.waiting.insert(after);
    }

    // One partner less waits of each partner of the place that waits.
    fn lower_partners<T: PairTable>(&mut self, table: &T, place: usize)
        ensures { let m = T.meaning table.now in Lowered m.size (m.partners place) self.old.tallies.records self.new.tallies.records }
    {
        for other in 0..table.size() {
            if table.partners(place, other) && self.tallies.waits(other as u8) {
                self.lower(other as u8);
            }
        }
    }

    // Takes the first place out of the line.
    fn take_next<T: PairTable>(&mut self, table: &T) -> Option<Waiting>
        requires { let m = T.meaning table.now in Tallied m.size m.partners self.old.tallies.records (held self.old.waiting) }
        ensures tallied { let m = T.meaning table.now in Tallied m.size m.partners self.new.tallies.records (held self.new.waiting) }
        ensures answer { let m = T.meaning table.now in result ≡ next_of m.partners (left m.size self.old.tallies.records) }
        ensures left { let m = T.meaning table.now in left m.size self.new.tallies.records ≡ after_next m.partners (left m.size self.old.tallies.records) }
    {
        let first = self.waiting.pop_first().ok()?;
        self.tallies.stop(first.place as u8);
        self.lower_partners(table, first.place as usize);
        Some(first)
    }
}

// How many partners a place has.
fn count_partners<T: PairTable>(table: &T, place: usize) -> u16
    ensures { let m = T.meaning table.now in result ≡ how_many (m.partners place) (places m.size) }
{
    (0..table.size())
        .filter(|&other| table.partners(place, other))
        .count() as u16
}

// Takes every place, in the order that it writes; tells the largest number of partners that waited when a place was taken.
pub(crate) fn take_all<T: PairTable>(table: &T, order: &mut [u16], space: &mut [Waiting]) -> usize
    requires order { length order.old ≡ (T.meaning table.now).size }
    requires space { (T.meaning table.now).size ≤ length space.old }
    ensures order { let m = T.meaning table.now in order.new ≡ taken m.partners m.size (places m.size) }
    ensures space { length space.new ≡ length space.old }
    ensures most { let m = T.meaning table.now in result ≡ most m.partners (taken m.partners m.size (places m.size)) }
{
    let mut line = Line::of_all(table, space);
    let mut largest = 0usize;
    for slot in order.iter_mut() {
        let Some(next) = line.take_next(table) else {
            // Never taken: as many places wait as slots are left.
            break;
        };
        *slot = next.place;
        largest = largest.max(next.tally as usize);
    }
    largest
}
