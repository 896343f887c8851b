ghost use Rattle.std.specs.Prelude.{◌≡◌, ◌≤◌, ℤ, Some, unsigned_abs};
ghost use Rattle.section.specs.Plan.{Plan, size};
ghost use Rattle.stencil.specs.Stencils.{Stands};
ghost use Rattle.walk.specs.Sites.{WalkableOver};
ghost use Rattle.steps.specs.Steps.{FairTemperature, FairMajorant};
ghost use Rattle.measure.specs.AtRows.{EquationOver};
ghost use Rattle.measure.specs.Measures.{residual as residual_of, rest as rest_of, cell_margin as margin_of, lesser as lesser_of, margin_to};

use crate::at::{cell_margin, residual};
use section::rows::{Majorant, Temperature};
use stencil::types::Stencil;
use walk::walk::look;

// The margin of a free cell. For the crates above.
pub fn margin_at(rows: &[Option<Stencil>], grid: &[Majorant], stencil: Stencil, cell: usize) -> i64
    requires fair { WalkableOver FairMajorant rows.now grid.now }
    requires here { EquationOver rows.now cell stencil }
    ensures value { (p : Plan) → Stands p rows.now → result ≡ margin_of p grid.now cell }
    ensures most { unsigned_abs result ≤ 2500000000 }
{
    cell_margin(&look(stencil, grid, cell))
}

// The absolute residual of a free cell.
fn residual_at(rows: &[Option<Stencil>], grid: &[Temperature], stencil: Stencil, cell: usize) -> u64
    requires fair { WalkableOver FairTemperature rows.now grid.now }
    requires here { EquationOver rows.now cell stencil }
    ensures value { (p : Plan) → Stands p rows.now → result ≡ unsigned_abs (residual_of p grid.now cell) }
    ensures most { result ≤ 18000000000000 }
{
    residual(&look(stencil, grid, cell))
}

// The largest absolute residual over the free cells, 0 with none.
pub(crate) fn rest(rows: &[Option<Stencil>], grid: &[Temperature]) -> u64
    requires { WalkableOver FairTemperature rows.now grid.now }
    ensures value { (p : Plan) → Stands p rows.now → result ≡ rest_of p grid.now }
    ensures most { result ≤ 18000000000000 }
{
    let mut rest: u64 = 0;
    for (cell, row) in rows.iter().enumerate() {
        if let Some(stencil) = row {
            rest = rest.max(residual_at(rows, grid, *stencil, cell));
        }
    }
    rest
}

// The smaller of two margins, the first of which may be missing.
fn lesser(least: Option<i64>, own: i64) -> i64
    ensures { result ≡ lesser_of least own }
{
    match least {
        None => own,
        Some(margin) => margin.min(own),
    }
}

// The smallest margin of the free cells, if there are any.
pub(crate) fn least_margin(rows: &[Option<Stencil>], grid: &[Majorant]) -> Option<i64>
    requires { WalkableOver FairMajorant rows.now grid.now }
    ensures value { (p : Plan) → Stands p rows.now → result ≡ margin_to p grid.now (size p) }
    ensures most { (m : ℤ) → result ≡ Some m → unsigned_abs m ≤ 2500000000 }
{
    let mut least: Option<i64> = None;
    for (cell, row) in rows.iter().enumerate() {
        if let Some(stencil) = row {
            least = Some(lesser(least, margin_at(rows, grid, *stencil, cell)));
        }
    }
    least
}
