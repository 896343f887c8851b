ghost use Rattle.std.specs.Prelude.{◌≡◌, length, int_lt};
ghost use Rattle.section.specs.Plan.{Plan};
ghost use Rattle.section.specs.Reading.{row_bracket};
ghost use Rattle.stencil.specs.Stencils.{Stands};
ghost use Rattle.certificate.specs.Counting.{open_count, width};

use section::rows::BracketRow;
use section::types::{Bracket, Tolerance};
use stencil::types::Stencil;

fn is_open(row: BracketRow, tolerance: Tolerance) -> bool
    ensures { result ≡ int_lt tolerance.width (width (row_bracket row)) }
{
    let bracket = Bracket::from(row);
    bracket.hi - bracket.lo > tolerance.width
}

// The free cells whose bracket is wider than the tolerance. For the crates above.
pub fn count_open(rows: &[Option<Stencil>], grid: &[BracketRow], tolerance: Tolerance) -> usize
    requires { length grid.now ≡ length rows.now }
    ensures { (p : Plan) → Stands p rows.now → result ≡ open_count p tolerance.width grid.now }
{
    let mut open: usize = 0;
    for (index, row) in rows.iter().enumerate() {
        match row {
            None => {}
            Some(_) => {
                if is_open(grid[index], tolerance) {
                    open += 1;
                }
            }
        }
    }
    open
}
