ghost use Rattle.std.specs.Prelude.{◌≡◌, ◌<◌, length};
ghost use Rattle.section.specs.Plan.{Plan, is_free_at, size};
ghost use Rattle.stencil.specs.Sides.{OnSides};
ghost use Rattle.stencil.specs.Stencils.{Stands};
ghost use Rattle.walk.specs.Sites.{Shows, WalkableOver};
ghost use Rattle.walk.specs.Walks.{walk as walk_of, walked_as};

use crate::rule::Rule;
use crate::types::{Halted, Site, Turn};
use stencil::types::Stencil;

// The site of a cell. For the crates above.
pub fn look<E: Copy>(stencil: Stencil, grid: &[E], index: usize) -> Site<E>
    requires on { index < length grid.now }
    requires around { OnSides (λ arm. arm.cell < length grid.now) stencil.arms }
    ensures { Shows grid.now index stencil result }
{
    Site {
        stencil,
        old: grid[index],
        around: stencil.arms.map(|arm| grid[arm.cell as usize]),
    }
}

// Treats each free cell in index order, with the newest entries. Answers the cells changed.
pub(crate) fn once<E: Copy, R: Rule<E>>(
    rule: &R,
    rows: &[Option<Stencil>],
    grid: &mut [E],
) -> Result<usize, Halted>
    requires { WalkableOver (R.fair rule.now) rows.now grid.old }
    ensures value { (p : Plan) → Stands p rows.now → walked_as grid.new result ≡ walk_of (R.step rule.now p) (is_free_at p) (size p) grid.old }
    ensures kept { WalkableOver (R.fair rule.now) rows.now grid.new }
{
    let mut changed = 0;
    for (index, row) in rows.iter().enumerate() {
        if let Some(stencil) = row {
            match rule.turn(look(*stencil, grid, index)) {
                Turn::Stay => {}
                Turn::Put(entry) => {
                    grid[index] = entry;
                    changed += 1;
                }
                Turn::Stop => {
                    return Err(Halted {
                        cell: index,
                        changed,
                    });
                }
            }
        }
    }
    Ok(changed)
}
