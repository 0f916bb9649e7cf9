//! Reading a book into the caller's spaces.

ghost use Rattle.std.specs.Prelude.{◌≡◌, false, length, replicate, is_ok};
ghost use Rattle.book.specs.Reading.{Finds, IndexAfter, MarksAfter, Means, answer_of, cards_after, outcome};
ghost use Rattle.book.specs.Spaces.{no_card, no_index, too_short};
ghost use Rattle.format.specs.Rules.{read_book};

use crate::index::{Index, IndexRecord};
use crate::open::{Notes, OpenBook};
use crate::reader::Reader;
use crate::sizes::{BYTES, CARDS, MARK_BYTES};
use format::{Card, Section};
use refusal::{Layer, Reason, Refusal};

// Zeroes the spaces. They are the caller's three, and go side by side through this file: of a struct over the three
// `&mut` the proof loses what the spaces end as.
fn clear(cards: &mut [Card; CARDS], marks: &mut [u8; MARK_BYTES], index: &mut [IndexRecord; CARDS])
    ensures cards { cards.new ≡ replicate 256 no_card }
    ensures marks { marks.new ≡ replicate 4080 0 }
    ensures index { index.new ≡ replicate 256 no_index }
{
    cards.fill(Card::NONE);
    marks.fill(0);
    index.fill(IndexRecord::NONE);
}

// Reads every record into spaces that are clear.
fn read_into(
    bytes: &[u8],
    cards: &mut [Card; CARDS],
    marks: &mut [u8; MARK_BYTES],
    index: &mut [IndexRecord; CARDS],
) -> Result<OpenBook, Refusal>
    requires cards { cards.old ≡ replicate 256 no_card }
    requires marks { marks.old ≡ replicate 4080 0 }
    ensures { Finds (read_book bytes.now) result cards.new marks.new }
{
    let mut index = Index::new(index);
    // Put together here, since of several spaces lent to a `new` the proof loses what they end as.
    let mut reader = Reader {
        section: Section::Cards,
        notes: Notes::NONE,
        cards,
        marks,
        index: &mut index,
    };
    reader.read_records(bytes)
}

// Reads every record; a refusal leaves the spaces zero.
fn read_or_clear(
    bytes: &[u8],
    cards: &mut [Card; CARDS],
    marks: &mut [u8; MARK_BYTES],
    index: &mut [IndexRecord; CARDS],
) -> Result<OpenBook, Refusal>
    ensures finds { Finds (read_book bytes.now) result cards.new marks.new }
    ensures whole { (length cards.new ≡ 256) × (length index.new ≡ 256) }
    ensures cleared { is_ok result ≡ false → (cards.new ≡ replicate 256 no_card) × (marks.new ≡ replicate 4080 0) × (index.new ≡ replicate 256 no_index) }
{
    clear(cards, marks, index);
    let answer = read_into(bytes, cards, marks, index);
    if answer.is_err() {
        clear(cards, marks, index);
    }
    answer
}

/// Reads a roll book into the caller's spaces: 256 cards, 4,080 mark bytes and 256 index records, each used at its
/// front.
///
/// Refused are more than 65,536 bytes, then a space that is too short, and nothing is touched; then the first record
/// that breaks a rule, at its offset, and the spaces are zero.
pub fn read(
    bytes: &[u8],
    cards: &mut [Card],
    marks: &mut [u8],
    index: &mut [IndexRecord],
) -> Result<OpenBook, Refusal>
    ensures answer { result ≡ answer_of (outcome bytes.now (too_short (length cards.old) (length marks.old) (length index.old))) }
    ensures cards { cards.new ≡ cards_after (outcome bytes.now (too_short (length cards.old) (length marks.old) (length index.old))) cards.old }
    ensures marks { MarksAfter (outcome bytes.now (too_short (length cards.old) (length marks.old) (length index.old))) marks.old marks.new }
    ensures index { IndexAfter (outcome bytes.now (too_short (length cards.old) (length marks.old) (length index.old))) index.old index.new }
    ensures means { Means bytes.now (too_short (length cards.old) (length marks.old) (length index.old)) result cards.new marks.new }
{
    if bytes.len() > BYTES {
        return Err(Refusal::new(Reason::TooLong, Layer::Book, 0));
    }
    let short = Refusal::new(Reason::ShortSpace, Layer::Book, 0);
    let cards = cards.first_chunk_mut::<CARDS>().ok_or(short)?;
    let marks = marks.first_chunk_mut::<MARK_BYTES>().ok_or(short)?;
    let index = index.first_chunk_mut::<CARDS>().ok_or(short)?;
    read_or_clear(bytes, cards, marks, index)
}
