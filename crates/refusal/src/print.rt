ghost use Rattle.std.specs.Prelude.{Some};
ghost use Rattle.refusal.specs.Printed.{level_text, refusal_text};

use crate::types::{Level, Refusal};
use std::error::Error;
use std::fmt;

impl fmt::Display for Level {
    ghost output = { λ level. Some (level_text level) };

    fn fmt<W: fmt::Write>(&self, f: &mut fmt::Formatter<W>) -> fmt::Result {
        f.write_str(match self {
            Level::Call => "call",
            Level::Table => "table",
            Level::Walk => "walk",
        })
    }
}

impl fmt::Display for Refusal {
    ghost output = { λ refusal. Some (refusal_text refusal) };

    fn fmt<W: fmt::Write>(&self, f: &mut fmt::Formatter<W>) -> fmt::Result {
        let number = self.number();
        let place = self.place();
        let level = self.level();
        // By its type's path, since Rust's `Error` has a `cause` of its own.
        let cause = Refusal::cause(*self);
        write!(f, "refused {number} at {place}, level {level}: {cause}")
    }
}

impl Error for Refusal {}
