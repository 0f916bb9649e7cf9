//! What is wrong with a record, before it is known where it stands.

ghost use Rattle.std.specs.Prelude.{◌≡◌, None};
ghost use Rattle.book.specs.Stands.{fault_of};
ghost use Rattle.refusal.specs.Refusals.{refused_over};
ghost use Rattle.refusal.specs.declared.Layer.TheVariants.{Book};

use refusal::{Layer, Reason, Refusal};

// The rule that a record breaks; `below` is what the index refused, where the fault rests on that.
#[derive(Clone, Copy, PartialEq, Eq, Debug)]
pub(crate) struct Fault {
    pub(crate) why: Reason,
    pub(crate) below: Option<Reason>,
}

impl From<Reason> for Fault {
    ghost from_gives = { λ why fault. fault ≡ fault_of why None };

    fn from(why: Reason) -> Fault {
        Fault { why, below: None }
    }
}

impl Fault {
    // The refusal of the record at an offset.
    pub(crate) fn at(self, place: usize) -> Refusal
        ensures { result ≡ refused_over self.why Book place self.below }
    {
        Refusal {
            below: self.below,
            ..Refusal::new(self.why, Layer::Book, place)
        }
    }
}
