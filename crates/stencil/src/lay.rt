ghost use Rattle.std.specs.Prelude.{◌≡◌, ℕ, ◌+◌, ◌%◌, ◌<◌, ◌≤◌, None, ◌+ℤ◌, unsigned_abs, slice_index_or, vec_len, vec_capacity};
ghost use Rattle.section.specs.Plan.{Plan, free, at, size};
ghost use Rattle.stencil.specs.Laying.{Near, ArmsNear, AllNear, LaidOf, ChangedAt};
ghost use Rattle.stencil.specs.Sides.{OnSides};
ghost use Rattle.stencil.specs.Stencils.{Equation, RowOf, SidesOf, Stands, OnPlan};

use crate::kept::{Kept, keep};
use crate::side::{east, look_toward, next_column, north, south, west};
use crate::sides::Sides;
use crate::types::{Side, Stencil};
use ground::ground::Ground;
use number::sum_of_five;
use section::types::{FreeRecord, Record, Shape};

// d: the loss and every link that counts, toward free and held cells alike.
fn diagonal(own: FreeRecord, sides: Sides<Side>) -> u16
    ensures { result ≡ own.loss + sides.north.counts + sides.west.counts + sides.east.counts + sides.south.counts }
{
    own.loss + sides.north.counts + sides.west.counts + sides.east.counts + sides.south.counts
}

// What is known of a cell's temperature: its heat and what the held cells around it give.
fn source(own: FreeRecord, sides: Sides<Side>) -> i64
    ensures value { result ≡ own.heat +ℤ (sides.north.given +ℤ (sides.west.given +ℤ (sides.east.given +ℤ sides.south.given))) }
    ensures size { unsigned_abs result ≤ 5000000000000 }
{
    sum_of_five(
        own.heat,
        sides.north.given,
        sides.west.given,
        sides.east.given,
        sides.south.given,
    )
}

fn look_around<G: Ground>(
    ground: &G,
    shape: Shape,
    index: usize,
    column: usize,
    own: FreeRecord,
) -> Sides<Side>
    requires on { OnPlan (G.plan ground.now) index }
    requires wide { shape.wide ≡ (G.plan ground.now).wide }
    requires column { column ≡ index % shape.wide }
    ensures sides { SidesOf (G.plan ground.now) index own result }
    ensures near { OnSides (λ s. Near (G.plan ground.now) index s.arm.cell) result }
{
    Sides {
        north: look_toward(ground, index, north(shape, index), own.north),
        west: look_toward(ground, index, west(shape, index, column), own.west),
        east: look_toward(ground, index, east(shape, index, column), own.east),
        south: look_toward(ground, index, south(shape, index), own.south),
    }
}

fn equation<G: Ground>(
    ground: &G,
    shape: Shape,
    index: usize,
    column: usize,
    own: FreeRecord,
) -> Stencil
    requires on { OnPlan (G.plan ground.now) index }
    requires wide { shape.wide ≡ (G.plan ground.now).wide }
    requires column { column ≡ index % shape.wide }
    requires here { free own.north own.west own.east own.south own.loss own.heat ≡ at (G.plan ground.now) index }
    ensures equation { Equation (G.plan ground.now) index result }
    ensures near { OnSides (λ a. Near (G.plan ground.now) index a.cell) result.arms }
{
    let sides = look_around(ground, shape, index, column, own);
    Stencil {
        arms: sides.map(|side| side.arm),
        diagonal: diagonal(own, sides),
        source: source(own, sides),
    }
}

fn row<G: Ground>(ground: &G, shape: Shape, index: usize, column: usize) -> Option<Stencil>
    requires wide { shape.wide ≡ (G.plan ground.now).wide }
    requires column { column ≡ index % shape.wide }
    requires few { size (G.plan ground.now) ≤ 4096 }
    requires near { index < 4096 }
    ensures row { RowOf (G.plan ground.now) index result }
    ensures near { ArmsNear (G.plan ground.now) index result }
{
    match ground.record(index) {
        Record::Free(own) => Some(equation(ground, shape, index, column, own)),
        Record::Held(_) => None,
        Record::Void => None,
    }
}

fn lay_rows<G: Ground>(ground: &G, rows: &mut Vec<Option<Stencil>>)
    requires { 4096 ≤ vec_capacity rows.old }
    ensures stands { Stands (G.plan ground.now) rows.new.items }
    ensures near { AllNear (G.plan ground.now) rows.new.items }
    ensures capacity { vec_capacity rows.new ≡ vec_capacity rows.old }
{
    let shape = ground.shape();
    rows.clear();
    let mut column = 0;
    for index in 0..shape.cells() {
        rows.push_reserved(row(ground, shape, index, column));
        column = next_column(shape, index, column);
    }
}

// Lays the equations of the ground out, one row for each cell, in room that is there already.
// For the crates above.
pub fn lay<G: Ground>(ground: &G, records: &mut Vec<Record>, rows: &mut Vec<Option<Stencil>>)
    requires kept { 4096 ≤ vec_capacity records.old }
    requires laid { 4096 ≤ vec_capacity rows.old }
    ensures stands { Stands (G.plan ground.now) rows.new.items }
    ensures whole { LaidOf (G.plan ground.now) records.new.items rows.new.items }
    ensures kept { vec_capacity records.new ≡ vec_capacity records.old }
    ensures laid { vec_capacity rows.new ≡ vec_capacity rows.old }
{
    keep(ground, records);
    let shape = ground.shape();
    let records = records.as_slice();
    lay_rows(&Kept { shape, records }, rows);
}

// Lays the rows from `first` to `end` anew.
fn lay_window<G: Ground>(ground: &G, first: usize, end: usize, rows: &mut Vec<Option<Stencil>>)
    requires count { vec_len rows.old ≡ size (G.plan ground.now) }
    requires window { first ≤ end }
    requires inside { end ≤ size (G.plan ground.now) }
    ensures row { (k : ℕ) → first ≤ k → k < end → RowOf (G.plan ground.now) k (slice_index_or rows.new.items k None) }
    ensures near { (k : ℕ) → first ≤ k → k < end → ArmsNear (G.plan ground.now) k (slice_index_or rows.new.items k None) }
    ensures before { (k : ℕ) → k < first → slice_index_or rows.new.items k None ≡ slice_index_or rows.old.items k None }
    ensures after { (k : ℕ) → end ≤ k → slice_index_or rows.new.items k None ≡ slice_index_or rows.old.items k None }
    ensures count { vec_len rows.new ≡ vec_len rows.old }
    ensures capacity { vec_capacity rows.new ≡ vec_capacity rows.old }
{
    let shape = ground.shape();
    let mut column = first % shape.wide;
    for index in first..end {
        rows[index] = row(ground, shape, index, column);
        column = next_column(shape, index, column);
    }
}

// Lays the equations out anew where the plan has changed at one cell alone: a row tells of no
// cell further off than the one below its own.
pub(crate) fn lay_around<G: Ground>(
    ground: &G,
    cell: usize,
    records: &mut Vec<Record>,
    rows: &mut Vec<Option<Stencil>>,
)
    requires { (p : Plan) × LaidOf p records.old.items rows.old.items × ChangedAt cell p (G.plan ground.now) }
    ensures whole { LaidOf (G.plan ground.now) records.new.items rows.new.items }
    ensures kept { vec_capacity records.new ≡ vec_capacity records.old }
    ensures laid { vec_capacity rows.new ≡ vec_capacity rows.old }
{
    let shape = ground.shape();
    if cell >= shape.cells() {
        return;
    }
    records[cell] = ground.record(cell);
    let first = cell.saturating_sub(shape.wide);
    let end = shape.cells().min(cell + shape.wide + 1);
    let records = records.as_slice();
    lay_window(&Kept { shape, records }, first, end, rows);
}
