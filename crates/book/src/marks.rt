//! Pair marks: which two places are partners, one bit for each pair. Only this file knows which bit that is.

ghost use Rattle.std.specs.Prelude.{◌≡◌, ◌/◌, ◌<◌, ◌≤◌, length, ◌≢◌};
ghost use Rattle.book.specs.Marks.{bit_at, bit_of, flipped, tells, toggled};

use crate::sizes::CARDS;

// The bit that tells the pair of two places.
fn pair_bit(u: usize, v: usize) -> usize
    requires first { u < 256 }
    requires second { v < 256 }
    requires apart { u ≢ v }
    ensures bit { result ≡ bit_of u v }
    ensures within { result / 8 < 4080 }
{
    let (low, high) = if u < v { (u, v) } else { (v, u) };
    high * (high - 1) / 2 + low
}

// Whether a bit is set; none is behind the marks.
fn is_set(marks: &[u8], bit: usize) -> bool
    ensures { result ≡ bit_at marks.now bit }
{
    marks
        .get(bit / 8)
        .is_some_and(|&byte| (byte >> (bit % 8)) % 2 == 1)
}

// Turns a bit.
fn flip(marks: &mut [u8], bit: usize)
    requires { bit / 8 < length marks.old }
    ensures { marks.new ≡ flipped marks.old bit }
{
    marks[bit / 8] ^= 1 << (bit % 8);
}

/// Whether the marks tell that two places are partners. There is no pair of a place with itself or from place 256 on,
/// and marks that are not lent tell none.
pub fn is_marked(marks: &[u8], u: usize, v: usize) -> bool
    ensures { result ≡ tells marks.now u v }
{
    u < CARDS && v < CARDS && u != v && is_set(marks, pair_bit(u, v))
}

// Turns the mark of two places: partners are none then, and others are.
pub(crate) fn toggle(marks: &mut [u8], u: usize, v: usize)
    requires first { u < 256 }
    requires second { v < 256 }
    requires apart { u ≢ v }
    requires whole { 4080 ≤ length marks.old }
    ensures { marks.new ≡ toggled marks.old u v }
{
    flip(marks, pair_bit(u, v));
}
