ghost use Rattle.std.specs.Prelude.{◌≡◌};
ghost use Rattle.section.specs.Plan.{meant};
ghost use Rattle.section.specs.Reading.{row_cell, row_bracket, plain, widest};

use crate::rows::{BracketRow, FreeRow, Row};
use crate::types::{Bracket, FreeRecord, HeldRecord, Record};

// A number outside its limits gives void.
impl From<Row> for Record {
    ghost from_gives = { λ row r. meant r ≡ row_cell row };

    fn from(row: Row) -> Record {
        match row {
            Row::Free(row) => FreeRecord::new(
                row.north, row.west, row.east, row.south, row.loss, row.heat,
            ).map_or(Record::Void, Record::Free),
            Row::Held(temperature) => {
                HeldRecord::new(temperature).map_or(Record::Void, Record::Held)
            }
            Row::Void => Record::Void,
        }
    }
}

// The widest bracket: all that a cell's temperature can be.
impl Default for Bracket {
    ghost is_default = { λ b. plain b ≡ widest };

    fn default() -> Bracket {
        Bracket {
            lo: -2_000_000_000,
            hi: 2_000_000_000,
        }
    }
}

// A row that makes no bracket gives the widest.
impl From<BracketRow> for Bracket {
    ghost from_gives = { λ row b. plain b ≡ row_bracket row };

    fn from(row: BracketRow) -> Bracket {
        Bracket::new(row.lo, row.hi).unwrap_or_default()
    }
}

impl From<Bracket> for BracketRow {
    ghost from_gives = { λ bracket row. row ≡ plain bracket };

    fn from(bracket: Bracket) -> BracketRow {
        BracketRow {
            lo: bracket.lo,
            hi: bracket.hi,
        }
    }
}
