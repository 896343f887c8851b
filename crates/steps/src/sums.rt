ghost use Rattle.std.specs.Prelude.{◌≡◌, ◌≤◌, ◌+ℤ◌, unsigned_abs};
ghost use Rattle.stencil.specs.Sides.{OnSides, map_sides};
ghost use Rattle.stencil.specs.Stencils.{weighed_sum, weighed_sum_n};

use crate::height::Height;
use number::{sum_of_five, weighed};
use stencil::sides::Sides;
use stencil::types::Stencil;

// S of an equation: its source and the weighed entries around it. For the crates above.
pub fn pull(stencil: &Stencil, entries: Sides<i64>) -> i64
    requires { OnSides (λ x. unsigned_abs x ≤ 2000000000) entries }
    ensures value { result ≡ stencil.now.source +ℤ weighed_sum stencil.now.arms entries }
    ensures size { unsigned_abs result ≤ 13000000000000 }
{
    let n = weighed(stencil.arms.north.weight, entries.north);
    let w = weighed(stencil.arms.west.weight, entries.west);
    let e = weighed(stencil.arms.east.weight, entries.east);
    let s = weighed(stencil.arms.south.weight, entries.south);
    sum_of_five(stencil.source, n, w, e, s)
}

// The sum of weighed majorant entries around a cell. For the crates above.
pub fn load(stencil: &Stencil, heights: Sides<Height>) -> u64
    ensures value { result ≡ weighed_sum_n stencil.now.arms (map_sides (λ h. h.value) heights) }
    ensures size { result ≤ 2000000000 }
{
    let n = u64::from(stencil.arms.north.weight) * heights.north.value;
    let w = u64::from(stencil.arms.west.weight) * heights.west.value;
    let e = u64::from(stencil.arms.east.weight) * heights.east.value;
    let s = u64::from(stencil.arms.south.weight) * heights.south.value;
    n + (w + (e + s))
}
