//! What is proved of the format itself.

ghost use Rattle.format.specs.Theorems.{ReadsExactly};

/// Reading by the rules accepts exactly the books of the grammar, and names the first fault of all other bytes.
pub fn reads_exactly()
    ensures { ReadsExactly }
{}
