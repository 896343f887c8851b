ghost use Rattle.std.specs.Prelude.{Some};
ghost use Rattle.std.specs.Fmt.{signed_decimal};
ghost use Rattle.section.specs.Printed.{bracket_text};

use crate::rows::{BracketRow, Majorant, Temperature};
use std::fmt;

impl fmt::Display for Temperature {
    ghost output = { λ entry. Some (signed_decimal entry.value) };

    fn fmt<W: fmt::Write>(&self, f: &mut fmt::Formatter<W>) -> fmt::Result {
        let value = self.value;
        write!(f, "{value}")
    }
}

impl fmt::Display for Majorant {
    ghost output = { λ entry. Some (signed_decimal entry.value) };

    fn fmt<W: fmt::Write>(&self, f: &mut fmt::Formatter<W>) -> fmt::Result {
        let bound = self.value;
        write!(f, "{bound}")
    }
}

impl fmt::Display for BracketRow {
    ghost output = { λ row. Some (bracket_text row) };

    fn fmt<W: fmt::Write>(&self, f: &mut fmt::Formatter<W>) -> fmt::Result {
        let lo = self.lo;
        let hi = self.hi;
        write!(f, "{lo}..{hi}")
    }
}
