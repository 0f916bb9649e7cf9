//! How large a book and the spaces that it is read into may be.

/// The most cards of a book.
pub(crate) const CARDS: usize = 256;

/// The bytes that hold a mark for each two of the cards.
pub(crate) const MARK_BYTES: usize = 4080;

/// The most bytes of a book.
pub(crate) const BYTES: usize = 65536;
