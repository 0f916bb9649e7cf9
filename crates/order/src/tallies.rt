//! How many of each place's partners wait.

ghost use Rattle.std.specs.Prelude.{◌≡◌, ◌-◌, true, false, set, replicate};
ghost use Rattle.order.specs.Lines.{key_of, waits_at, count_at};

use crate::waiting::Waiting;

// How many partners of a place wait, and whether it waits itself: no `Option`, since the number stands once the place is
// taken.
#[derive(Clone, Copy, PartialEq, Eq, Debug)]
pub(crate) struct Tally {
    pub(crate) partners: u16,
    pub(crate) waits: bool,
}

// One record at a time is lent to these two.
impl Tally {
    // One partner less waits.
    fn lower(&mut self)
        ensures { self.new ≡ record { partners = self.old.partners - 1; waits = self.old.waits } }
    {
        self.partners = self.partners.saturating_sub(1);
    }

    // The place waits no longer.
    fn stop(&mut self)
        ensures { self.new ≡ record { partners = self.old.partners; waits = false } }
    {
        self.waits = false;
    }
}

// A tally for each place, in a fixed array, since the library has no heap. There are 256 places at most, so a place is a
// `u8` here.
#[derive(Drop)]
pub(crate) struct Tallies {
    records: [Tally; 256],
}

impl Tallies {
    // No place waits.
    pub(crate) fn new() -> Tallies
        ensures { result.records ≡ replicate 256 (record { partners = 0; waits = false }) }
    {
        Tallies {
            records: [Tally {
                partners: 0,
                waits: false,
            }; 256],
        }
    }

    // The place begins to wait, with that many partners.
    pub(crate) fn start(&mut self, place: u8, partners: u16)
        ensures { self.new.records ≡ set self.old.records place (record { partners = partners; waits = true }) }
    {
        self.records[place as usize] = Tally {
            partners,
            waits: true,
        };
    }

    // The place waits no longer.
    pub(crate) fn stop(&mut self, place: u8)
        ensures { self.new.records ≡ set self.old.records place (record { partners = count_at self.old.records place; waits = false }) }
    {
        let record = &mut self.records[place as usize];
        record.stop();
    }

    // One partner less of the place waits.
    pub(crate) fn lower(&mut self, place: u8)
        ensures { self.new.records ≡ set self.old.records place (record { partners = count_at self.old.records place - 1; waits = waits_at self.old.records place }) }
    {
        let record = &mut self.records[place as usize];
        record.lower();
    }

    // Whether the place waits.
    pub(crate) fn waits(&self, place: u8) -> bool
        ensures { result ≡ waits_at self.now.records place }
    {
        self.records[place as usize].waits
    }

    // The place as the sorted slice holds it.
    pub(crate) fn waiting(&self, place: u8) -> Waiting
        ensures { result ≡ key_of self.now.records place }
    {
        Waiting {
            tally: self.records[place as usize].partners,
            place: u16::from(place),
        }
    }
}
