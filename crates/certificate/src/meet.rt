ghost use Rattle.std.specs.Prelude.{◌≡◌};
ghost use Rattle.section.specs.Reading.{plain};
ghost use Rattle.certificate.specs.Certifying.{common, crossed, settled as settled_of};

use crate::basis::Basis;
use section::rows::BracketRow;
use section::types::Bracket;

// What two brackets have in common.
pub(crate) fn shared(new: BracketRow, old: Bracket) -> BracketRow
    ensures { result ≡ common new (plain old) }
{
    BracketRow {
        lo: new.lo.max(old.lo),
        hi: new.hi.min(old.hi),
    }
}

pub(crate) fn crosses(bracket: BracketRow) -> bool
    ensures { result ≡ crossed bracket }
{
    bracket.hi < bracket.lo
}

// The row of a cell with a certified bracket; a bracket that stays leaves its row.
pub(crate) fn settled(basis: Basis, own: BracketRow, row: BracketRow) -> BracketRow
    ensures { result ≡ settled_of basis own row }
{
    let old = Bracket::from(row);
    let new = match basis {
        Basis::Alone => own,
        Basis::Joined => shared(own, old),
    };
    if new == BracketRow::from(old) {
        row
    } else {
        new
    }
}
