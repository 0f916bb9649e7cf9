//! How a summary is printed.

ghost use Rattle.std.specs.Prelude.{Some};
ghost use Rattle.summary.specs.Printed.{line_of, lines_of};

use crate::facts::{Summary, Terms};
use format::Rule;
use std::fmt;

/// `pairs 7` or `rule 30 10`.
impl fmt::Display for Terms {
    ghost output = { λ terms. Some (line_of terms) };

    fn fmt<W: fmt::Write>(&self, f: &mut fmt::Formatter<W>) -> fmt::Result {
        match *self {
            Terms::Pairs(pairs) => write!(f, "pairs {pairs}"),
            Terms::Rule(Rule { diameter, crown }) => write!(f, "rule {diameter} {crown}"),
        }
    }
}

/// Four lines: the rolls, those without a reading, the pairs or the rule, the withdrawn ones.
impl fmt::Display for Summary {
    ghost output = { λ summary. Some (lines_of summary) };

    fn fmt<W: fmt::Write>(&self, f: &mut fmt::Formatter<W>) -> fmt::Result {
        let Summary {
            rolls,
            unread,
            terms,
            withdrawn,
        } = *self;
        write!(
            f,
            "rolls {rolls}\nwithout reading {unread}\n{terms}\nwithdrawn {withdrawn}"
        )
    }
}
