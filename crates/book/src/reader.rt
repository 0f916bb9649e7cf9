//! The reader: records are taken in one by one, each after its checks.

ghost use Rattle.std.specs.Prelude.{◌≡◌, false, is_ok, replicate};
ghost use Rattle.book.specs.Reading.{Finds};
ghost use Rattle.book.specs.Spaces.{no_card};
ghost use Rattle.book.specs.Stands.{GoesOn, entered, entering, fresh, no_notes, pair_marked, placed, stand_of, step_of, told, told_stand, withdrawing};
ghost use Rattle.format.specs.Rules.{read_book};
ghost use Rattle.format.specs.Sections.{next};

use crate::fault::Fault;
use crate::index::Index;
use crate::marks::{is_marked, toggle};
use crate::open::{Notes, OpenBook};
use crate::sizes::{CARDS, MARK_BYTES};
use format::{Card, Record, Section, decode};
use refusal::{Layer, Reason, Refusal};

// How far a book has been read, over the spaces that it is read into.
#[derive(Drop)]
pub(crate) struct Reader<'a, 'i, 's> {
    pub(crate) section: Section,
    pub(crate) notes: Notes,
    pub(crate) cards: &'a mut [Card; CARDS],
    pub(crate) marks: &'a mut [u8; MARK_BYTES],
    // Borrowed, since behind an owned index the proof loses what the cards and marks end as.
    pub(crate) index: &'i mut Index<'s>,
}

impl Reader<'_, '_, '_> {
    // Moves to the section that the record belongs to, where it may follow.
    fn enter(&mut self, item: Record) -> Result<(), Fault>
        ensures answer { result ≡ entering (next self.old.section item) }
        ensures after { self.new ≡ entered self.old item }
    {
        self.section = match (self.section, item) {
            (Section::Cards, Record::Card(_)) => Section::Cards,
            (Section::Cards, Record::Rule(_)) => Section::Ruled,
            (Section::Cards | Section::Paired, Record::Pair(_, _)) => Section::Paired,
            (
                Section::Cards | Section::Ruled | Section::Paired | Section::Withdrawing,
                Record::Withdrawn(_),
            ) => { Section::Withdrawing }
            (
                Section::Cards | Section::Ruled | Section::Paired | Section::Withdrawing,
                Record::End,
            ) => Section::Done,
            _ => return Err(Reason::OutOfSection.into()),
        };
        Ok(())
    }

    // Takes a pair in.
    fn add_pair(&mut self, a: u16, b: u16) -> Result<(), Fault>
        ensures answer { pair_marked (stand_of self.old).index self.old.marks.now a b ≡ told result self.new.marks.now }
        ensures kept { self.new ≡ record self.old { marks = self.new.marks } }
        ensures same { self.new.marks.ghost_name ≡ self.old.marks.ghost_name }
    {
        let u = self.index.locate(a)?;
        let v = self.index.locate(b)?;
        if u == v {
            return Err(Reason::SelfPair.into());
        }
        if is_marked(self.marks, u, v) {
            return Err(Reason::Repeated.into());
        }
        toggle(self.marks, u, v);
        Ok(())
    }

    // Takes a withdrawn roll in.
    fn withdraw(&mut self, stamp: u16) -> Result<(), Fault>
        ensures answer { withdrawing (stand_of self.old).index self.old.notes.withdrawn stamp ≡ told result self.new.notes.withdrawn }
        ensures kept { self.new ≡ record self.old { notes = record self.old.notes { withdrawn = self.new.notes.withdrawn } } }
    {
        let place = self.index.locate(stamp)?;
        if self.notes.withdrawn[place] {
            return Err(Reason::Repeated.into());
        }
        self.notes.withdrawn[place] = true;
        Ok(())
    }

    // Takes a record in, after its checks.
    fn place(&mut self, item: Record) -> Result<(), Fault>
        ensures answer { placed (stand_of self.old) item ≡ told result (stand_of self.new) }
        ensures goes_on { GoesOn self.old self.new }
    {
        self.enter(item)?;
        if !item.in_range() {
            return Err(Reason::OutOfRange.into());
        }
        match item {
            Record::Card(card) => self.index.file(card, self.cards),
            Record::Rule(rule) => {
                self.notes.rule = Some(rule);
                Ok(())
            }
            Record::Pair(a, b) => self.add_pair(a, b),
            Record::Withdrawn(stamp) => self.withdraw(stamp),
            Record::End => Ok(()),
        }
    }

    // Reads the record that begins `part`, and tells how many bytes are left.
    fn step(&mut self, part: &[u8]) -> Result<usize, Fault>
        ensures answer { step_of part.now (stand_of self.old) ≡ told_stand result (stand_of self.new) }
        ensures goes_on { GoesOn self.old self.new }
    {
        if self.section == Section::Done {
            return Err(Reason::OutOfSection.into());
        }
        let (item, left) = decode(part)?;
        self.place(item)?;
        Ok(left)
    }

    // Reads every record, and opens the book that they make.
    fn scan(&mut self, bytes: &[u8]) -> Result<OpenBook, Refusal>
        requires fresh { stand_of self.old ≡ fresh }
        requires cards { self.old.cards.now ≡ replicate 256 no_card }
        ensures finds { Finds (read_book bytes.now) result self.new.cards.now self.new.marks.now }
        ensures goes_on { GoesOn self.old self.new }
    {
        // How far a record reaches is known once it is read, so the place is kept here and no iterator has it.
        let mut at = 0;
        while at < bytes.len() {
            let left = self.step(&bytes[at..]).map_err(|fault| fault.at(at))?;
            at = bytes.len() - left;
        }
        if self.section != Section::Done {
            return Err(Refusal::new(Reason::Truncated, Layer::Book, at));
        }
        Ok(OpenBook {
            count: self.index.len(),
            notes: self.notes,
        })
    }

    // Reads every record; a refusal leaves nothing of a rule and of withdrawn rolls in the reader.
    pub(crate) fn read_records(&mut self, bytes: &[u8]) -> Result<OpenBook, Refusal>
        requires fresh { stand_of self.old ≡ fresh }
        requires cards { self.old.cards.now ≡ replicate 256 no_card }
        ensures finds { Finds (read_book bytes.now) result self.new.cards.now self.new.marks.now }
        ensures goes_on { GoesOn self.old self.new }
        ensures cleared { is_ok result ≡ false → (self.new.section ≡ Section.Cards) × (self.new.notes ≡ no_notes) }
    {
        let answer = self.scan(bytes);
        if answer.is_err() {
            self.section = Section::Cards;
            self.notes = Notes::NONE;
        }
        answer
    }
}
