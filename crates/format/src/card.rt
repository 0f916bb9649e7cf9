//! Cards and the rule.

/// A roll's card.
#[derive(Clone, Copy, PartialEq, Eq, Debug)]
pub struct Card {
    /// The number stamped on the roll, 1 to 9,999.
    pub stamp: u16,
    /// The chock family, 1 to 255.
    pub family: u8,
    /// The diameter at mid-barrel in hundredths of a millimetre, at most 200,000; 0 without a fresh reading.
    pub diameter: u32,
    /// The mid-barrel diameter less that at the ends, in micrometres, -500 to 500; 0 without a reading.
    pub crown: i16,
}

impl Card {
    /// No card: every field is 0. A constant, since the spaces that are lent are arrays of it: `[Card::NONE; 256]`.
    pub const NONE: Card = Card {
        stamp: 0,
        family: 0,
        diameter: 0,
        crown: 0,
    };
}

/// The tolerances of a rule: how far the diameters and the crowns of partners may differ.
#[derive(Clone, Copy, PartialEq, Eq, Debug)]
pub struct Rule {
    /// In hundredths of a millimetre.
    pub diameter: u16,
    /// In micrometres.
    pub crown: u16,
}
