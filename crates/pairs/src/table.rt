//! The questions that every pair table answers, by its meaning.

ghost use Rattle.std.specs.Prelude.{◌≡◌, ℕ, ◌≤◌};
ghost use Rattle.cliques.specs.Graph.{Graph, Lawful};
ghost use Rattle.pairs.specs.Tables.{FirstPartner, Distinct};

/// Places from 0, at most 256, and which two of them are partners. No question refuses or alters the table.
pub trait PairTable {
    // How many places there are, and which of them are partners.
    ghost meaning: { Self → Graph };

    // Every table keeps the laws.
    ghost lawful: { (t : Self) → Lawful (meaning t) };

    /// Tells the number of places.
    fn size(&self) -> usize
        ensures { result ≡ (meaning self.now).size };

    /// Tells whether two places are partners; no place is its own partner, and none at or above the size has one.
    fn partners(&self, u: usize, v: usize) -> bool
        ensures { result ≡ (meaning self.now).partners u v };

    /// Finds the first partner of `u` at or above `w`, or `None` where there is none.
    fn first_partner(&self, u: usize, w: usize) -> Option<usize>
        ensures { FirstPartner (meaning self.now) u w result }
    {
        (w..self.size()).find(|&v| self.partners(u, v))
    }
}

/// A pair table that tells a stamp for each place.
pub trait Stamped: PairTable {
    // The stamp of a place, or 0.
    ghost stamps: { Self → ℕ → ℕ };

    // No two places have the same stamp other than 0.
    ghost distinct: { (t : Self) → Distinct (stamps t) };

    /// Tells the stamp of a place, at most 9999, or 0 where it has none, as at or above the size.
    fn stamp(&self, u: usize) -> u16
        ensures stamp { result ≡ stamps self.now u }
        ensures range { result ≤ 9999 }
        ensures beyond { (Self.PairTable.meaning self.now).size ≤ u → result ≡ 0 };
}

/// A table that is lent answers as itself.
impl<T: PairTable> PairTable for &T {
    ghost meaning = { λ t. T.PairTable.meaning t.now };

    ghost lawful = { λ t. T.PairTable.lawful t.now };

    fn size(&self) -> usize {
        (**self).size()
    }

    fn partners(&self, u: usize, v: usize) -> bool {
        (**self).partners(u, v)
    }

    fn first_partner(&self, u: usize, w: usize) -> Option<usize> {
        (**self).first_partner(u, w)
    }
}

/// A table with stamps that is lent answers as itself.
impl<T: Stamped> Stamped for &T {
    ghost stamps = { λ t. T.Stamped.stamps t.now };

    ghost distinct = { λ t. T.Stamped.distinct t.now };

    fn stamp(&self, u: usize) -> u16 {
        (**self).stamp(u)
    }
}
