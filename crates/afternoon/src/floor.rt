use crate::fault::Result;
use ground::listed::Listed;
use section::rows::{FreeRow, Row};
use section::types::Shape;
use std::alloc::Global;

const SIDE: usize = 64;

pub(crate) const CELLS: usize = SIDE * SIDE;

const LAST: usize = SIDE - 1;

const FOAM_LAST: usize = 6;

const HEATER_ROW: usize = 8;

// In millionths of a degree: the room above, the soil below and the soil beside.
const ROOM: i64 = -20_000_000;

const SOIL: i64 = 8_000_000;

const BESIDE: i64 = 4_000_000;

pub(crate) fn cell_at(row: u8, column: u8) -> usize {
    usize::from(row) * SIDE + usize::from(column)
}

pub(crate) fn row_and_column(cell: usize) -> (usize, usize) {
    (cell / SIDE, cell % SIDE)
}

// Foam conducts a quarter of what concrete and soil do.
fn weight(row: usize) -> i64 {
    if row <= FOAM_LAST { 1 } else { 4 }
}

// Two heater strips with a gap for the gutter.
fn heat(row: usize, column: usize) -> i64 {
    if row == HEATER_ROW && ((6..29).contains(&column) || (35..58).contains(&column)) {
        3_400_000
    } else {
        0
    }
}

// A link between two rows is as weak as the upper one.
fn inside(above: usize, row: usize, column: usize) -> Row {
    Row::Free(FreeRow {
        north: weight(above),
        west: weight(row),
        east: weight(row),
        south: weight(row),
        loss: 0,
        heat: heat(row, column),
    })
}

fn row_of(cell: usize) -> Row {
    match row_and_column(cell) {
        (0, _) => Row::Held(ROOM),
        (LAST, _) => Row::Held(SOIL),
        (_, 0 | LAST) => Row::Held(BESIDE),
        (row, column) => inside(row - 1, row, column),
    }
}

pub(crate) fn floor(heap: Global) -> Result<Listed> {
    let shape = Shape::new(SIDE as i64, SIDE as i64)?;
    Ok(Listed::new(shape, (0..CELLS).map(row_of).collect(heap)?))
}
