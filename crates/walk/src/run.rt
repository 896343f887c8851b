ghost use Rattle.std.specs.Prelude.{◌≡◌};
ghost use Rattle.section.specs.Plan.{Plan, is_free_at, size};
ghost use Rattle.stencil.specs.Stencils.{Stands};
ghost use Rattle.walk.specs.Sites.{WalkableOver};
ghost use Rattle.walk.specs.Walks.{run as run_of, ran_as};

use crate::rule::Rule;
use crate::types::Stopped;
use crate::walk::once;
use stencil::types::Stencil;

// Walks until one changes no cell, a step stops it, or `most` walks are made. Answers the walks
// begun and the cells changed in the last. For the crates above.
pub fn run<E: Copy, R: Rule<E>>(
    rule: &R,
    rows: &[Option<Stencil>],
    grid: &mut [E],
    most: usize,
) -> Result<(usize, usize), Stopped>
    requires { WalkableOver (R.fair rule.now) rows.now grid.old }
    ensures { (p : Plan) → Stands p rows.now → ran_as grid.new result ≡ run_of (R.step rule.now p) (is_free_at p) (size p) most grid.old }
{
    let mut changed = 0;
    for done in 0..most {
        changed = match once(rule, rows, grid) {
            Ok(changed) => changed,
            Err(halted) => {
                return Err(Stopped {
                    cell: halted.cell,
                    counts: (done + 1, halted.changed),
                });
            }
        };
        if changed == 0 {
            return Ok((done + 1, 0));
        }
    }
    Ok((most, changed))
}
