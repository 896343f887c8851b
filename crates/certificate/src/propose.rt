ghost use Rattle.std.specs.Prelude.{◌≡◌, ℕ, ◌<◌, ◌≤◌, ◌&&◌, length, pos, negsuc, int_lt, nat_lt};
ghost use Rattle.refusal.specs.Refusals.{check_of};
ghost use Rattle.section.specs.Limits.{outside};
ghost use Rattle.section.specs.Plan.{Plan, Free, is_free_at};
ghost use Rattle.section.specs.Reading.{temperatures as temperatures_of, majorants};
ghost use Rattle.stencil.specs.Stencils.{Stands};
ghost use Rattle.walk.specs.Sites.{WalkableOver};
ghost use Rattle.steps.specs.Steps.{heights, FairMajorant};
ghost use Rattle.measure.specs.Measures.{cell_margin, spread_of};
ghost use Rattle.certificate.specs.AtRows.{Laid};
ghost use Rattle.certificate.specs.Proposals.{MeasureOf};
ghost use Rattle.certificate.specs.Certifying.{temperature_check, majorant_check, margin_check, spread_check};

use measure::grids::margin_at;
use measure::measure::Measure;
use refusal::types::Refusal;
use scan::first_failing;
use section::rows::{Majorant, Temperature};
use section::types::Shape;
use stencil::types::Stencil;
use steps::height::Height;

// Whether a cell has an equation.
pub(crate) fn has_row(rows: &[Option<Stencil>], cell: usize) -> bool
    requires { cell < length rows.now }
    ensures { (p : Plan) → Stands p rows.now → result ≡ is_free_at p cell }
{
    rows[cell].is_some()
}

// The first free cell whose temperature is outside its limits is refused. For the crates above.
pub fn temperatures_fair(
    shape: Shape,
    rows: &[Option<Stencil>],
    grid: &[Temperature],
) -> Result<(), Refusal>
    requires { Laid shape rows.now (length grid.now) }
    ensures { (p : Plan) → Stands p rows.now → check_of result ≡ temperature_check p grid.now }
{
    let is_outside = |cell: usize|
        requires row { cell < length rows.now }
        requires entry { cell < length grid.now }
        ensures { (p : Plan) → Stands p rows.entry.now → result ≡ (is_free_at p cell && outside (negsuc 999999999) (pos 1000000000) (temperatures_of grid.entry.now cell)) }
    {
        has_row(rows, cell)
            && (grid[cell].value < -1_000_000_000 || grid[cell].value > 1_000_000_000)
    };
    match first_failing(shape, is_outside) {
        Some(cell) => Err(Refusal::Temperature(cell)),
        None => Ok(()),
    }
}

pub(crate) fn majorant_fair(
    shape: Shape,
    rows: &[Option<Stencil>],
    grid: &[Majorant],
) -> Result<(), Refusal>
    requires { Laid shape rows.now (length grid.now) }
    ensures { (p : Plan) → Stands p rows.now → check_of result ≡ majorant_check p grid.now }
{
    let is_outside = |cell: usize|
        requires row { cell < length rows.now }
        requires entry { cell < length grid.now }
        ensures { (p : Plan) → Stands p rows.entry.now → result ≡ (is_free_at p cell && outside (pos 0) (pos 500000) (majorants grid.entry.now cell)) }
    { has_row(rows, cell) && (grid[cell].value < 0 || grid[cell].value > 500_000) };
    match first_failing(shape, is_outside) {
        Some(cell) => Err(Refusal::Majorant(cell)),
        None => Ok(()),
    }
}

pub(crate) fn margins_enough(
    shape: Shape,
    rows: &[Option<Stencil>],
    grid: &[Majorant],
) -> Result<(), Refusal>
    requires laid { Laid shape rows.now (length grid.now) }
    requires fair { WalkableOver FairMajorant rows.now grid.now }
    ensures { (p : Plan) → Stands p rows.now → check_of result ≡ margin_check p grid.now }
{
    let is_slack = |cell: usize|
        requires row { cell < length rows.now }
        requires fair { WalkableOver FairMajorant rows.now grid.now }
        ensures { (p : Plan) → Stands p rows.entry.now → result ≡ (is_free_at p cell && int_lt (cell_margin p grid.entry.now cell) (pos 1)) }
    {
        match &rows[cell] {
            Some(stencil) => margin_at(rows, grid, *stencil, cell) < 1,
            None => false,
        }
    };
    match first_failing(shape, is_slack) {
        Some(cell) => Err(Refusal::Margin(cell)),
        None => Ok(()),
    }
}

pub(crate) fn spreads_near(
    shape: Shape,
    rows: &[Option<Stencil>],
    temperatures: &[Temperature],
    grid: &[Majorant],
    measure: Measure,
) -> Result<(), Refusal>
    requires laid { Laid shape rows.now (length grid.now) }
    requires fair { WalkableOver FairMajorant rows.now grid.now }
    requires some { (p : Plan) (k : ℕ) → Stands p rows.now → Free p k → 1 ≤ measure.margin }
    requires measured { (p : Plan) → Stands p rows.now → MeasureOf p temperatures.now grid.now measure }
    ensures { (p : Plan) → Stands p rows.now → check_of result ≡ spread_check p temperatures.now grid.now }
{
    let is_wide = |cell: usize|
        requires row { cell < length rows.now }
        requires fair { WalkableOver FairMajorant rows.now grid.now }
        requires some { (p : Plan) → Stands p rows.now → Free p cell → 1 ≤ measure.margin }
        ensures { (p : Plan) → Stands p rows.entry.now → result ≡ (is_free_at p cell && nat_lt 1000000000 (spread_of measure.rest measure.margin (heights grid.entry.now cell))) }
    { has_row(rows, cell) && measure.too_wide(Height::of(grid[cell])) };
    match first_failing(shape, is_wide) {
        Some(cell) => Err(Refusal::Spread(cell)),
        None => Ok(()),
    }
}
