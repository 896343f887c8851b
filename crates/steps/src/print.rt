ghost use Rattle.std.specs.Prelude.{Some};
ghost use Rattle.steps.specs.Printed.{report_text};

use crate::report::Report;
use std::fmt;

impl fmt::Display for Report {
    ghost output = { λ report. Some (report_text report) };

    fn fmt<W: fmt::Write>(&self, f: &mut fmt::Formatter<W>) -> fmt::Result {
        match self {
            Report::Settled => f.write_str("settled"),
            Report::Moving => f.write_str("moving"),
            Report::NoneAt(cell) => write!(f, "none at {cell}"),
        }
    }
}
