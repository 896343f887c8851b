ghost use Rattle.std.specs.Prelude.{◌≡◌, length};
ghost use Rattle.section.specs.Plan.{size};
ghost use Rattle.walk.specs.Sites.{Walkable};
ghost use Rattle.steps.specs.Steps.{cleared, FairMajorant};

use ground::ground::Ground;
use section::rows::Majorant;
use stencil::laid::LaidOut;

// Sets the entry of every free cell to 0. For the crates above.
pub fn clear<G: Ground>(laid: &LaidOut<G>, grid: &mut [Majorant])
    requires { length grid.old ≡ size (G.plan laid.now) }
    ensures value { grid.new ≡ cleared (G.plan laid.now) grid.old }
    ensures fair { Walkable FairMajorant (G.plan laid.now) grid.new }
{
    for (index, row) in laid.rows().iter().enumerate() {
        if row.is_some() {
            grid[index] = Majorant { value: 0 };
        }
    }
}
