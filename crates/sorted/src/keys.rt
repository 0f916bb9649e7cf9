//! Orders of keys, and records that have a key.

ghost use Rattle.std.specs.Prelude.{◌≡◌, Bool, true, false, nat_le};
ghost use Rattle.sorted.specs.Keyed.{tie};
ghost use Rattle.std.proofs.Common.{rules};

/// An order of keys in which any two keys compare. Two different keys may tie, and a key type may have an `Ord` besides that
/// orders its values another way.
pub trait Order {
    // Whether the first comes before the second or ties with it.
    ghost upto: { Self → Self → Bool };

    /// Whether this key comes before the other one or ties with it.
    fn at_most(&self, other: &Self) -> bool
        ensures { result ≡ upto self.now other.now };

    ghost total: { (x y : Self) → upto x y ≡ false → upto y x ≡ true };

    ghost transitive: { (x y z : Self) → upto x y ≡ true → upto y z ≡ true → upto x z ≡ true };
}

/// An order of keys in which keys that tie are the same key.
pub trait TotalOrder: Order {
    /// Whether this key is the other one. It promises what `==` does not: that keys which tie are one key.
    fn same(&self, other: &Self) -> bool
        ensures test { result ≡ tie Self.Order.upto self.now other.now }
        ensures same { result ≡ true → self.now ≡ other.now }
    {
        self.at_most(other) && other.at_most(self)
    }

    ghost ties: { (x y : Self) → Self.Order.upto x y ≡ true → Self.Order.upto y x ≡ true → x ≡ y };
}

/// A record that has a key.
pub trait Keyed: Copy {
    /// What the records are ordered by.
    type Key: Order + Copy;

    // The record's key.
    ghost keyed: { Self → Self.Key };

    /// The record's key.
    fn key(&self) -> Self::Key
        ensures { result ≡ keyed self.now };
}

/// Numbers in their usual order.
impl Order for u16 {
    ghost upto = { nat_le };

    ghost total = { Prim.search rules };

    ghost transitive = { Prim.search rules };

    fn at_most(&self, other: &u16) -> bool {
        self <= other
    }
}

/// Numbers that tie are the same number.
impl TotalOrder for u16 {
    ghost ties = { Prim.search rules };
}
