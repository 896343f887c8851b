use crate::dice::Dice;
use crate::fault::Result;
use crate::floor::Floor;
use ground::listed::Listed;
use ground::ring::Ring;
use ground::slab::Slab;
use section::rows::{FreeRow, Row};
use section::types::Shape;
use std::alloc::{AllocError, Global};
use std::array;

// What the first column borders on: a slab's first side, at its temperature, or a ring's axis.
#[derive(Clone, Copy)]
enum First {
    Side(i64),
    Axis,
}

// What a slab or a ring is made of.
#[derive(Clone, Copy)]
struct Rim {
    wide: i64,
    high: i64,
    top: i64,
    bottom: i64,
    first: First,
    last: i64,
    heat: i64,
}

fn free(weights: [i64; 4], loss: i64, heat: i64) -> Row {
    let [north, west, east, south] = weights;
    Row::Free(FreeRow {
        north,
        west,
        east,
        south,
        loss,
        heat,
    })
}

impl Rim {
    fn inside(self, column: i64) -> Row {
        match self.first {
            First::Side(_) => free([1, 1, 1, 1], 0, self.heat),
            First::Axis => {
                let west = column.wrapping_mul(2);
                let part = west.wrapping_add(1);
                let heat = self.heat.wrapping_mul(part);
                free([part, west, west.wrapping_add(2), part], 0, heat)
            }
        }
    }

    fn row(self, row: i64, column: i64) -> Row {
        if row == 0 {
            return Row::Held(self.top);
        }
        if row.wrapping_add(1) == self.high {
            return Row::Held(self.bottom);
        }
        match self.first {
            First::Side(first) if column == 0 => Row::Held(first),
            _ if column.wrapping_add(1) == self.wide => Row::Held(self.last),
            _ => self.inside(column),
        }
    }

    // Row by row, by the numbers that were drawn.
    fn floor(self, heap: Global, wide: usize) -> Result<Floor, AllocError> {
        let rows = (0..self.high)
            .flat_map(|row| (0..self.wide).map(move |column| self.row(row, column)))
            .collect(heap)?;
        Ok(Floor::new(heap, wide, rows))
    }

    fn random(dice: &mut Dice, first: First, wide: i64) -> Rim {
        Rim {
            wide,
            high: dice.between(3, 4),
            top: dice.temperature(),
            bottom: dice.temperature(),
            first,
            last: dice.temperature(),
            heat: dice.around(90_000_000),
        }
    }
}

pub(crate) fn slab(heap: Global, dice: &mut Dice) -> Result<(Slab, Floor)> {
    let first = dice.temperature();
    let wide = dice.between(3, 5);
    let rim = Rim::random(dice, First::Side(first), wide);
    let shape = Shape::new(rim.wide, rim.high)?;
    let slab = Slab::new(shape, rim.top, rim.bottom, first, rim.last, rim.heat)?;
    Ok((slab, rim.floor(heap, shape.wide)?))
}

pub(crate) fn ring(heap: Global, dice: &mut Dice) -> Result<(Ring, Floor)> {
    let wide = dice.between(2, 4);
    let rim = Rim::random(dice, First::Axis, wide);
    let shape = Shape::new(rim.wide, rim.high)?;
    let ring = Ring::new(shape, rim.top, rim.bottom, rim.last, rim.heat)?;
    Ok((ring, rim.floor(heap, shape.wide)?))
}

fn random_free(dice: &mut Dice, heaviest: i64) -> Row {
    let weights = array::from_fn(|_| dice.between(0, heaviest));
    let loss = dice.between(0, 2);
    free(weights, loss, dice.around(90_000_000))
}

// A row as given and as read: one with a number outside its limits reads as void.
fn random_row(dice: &mut Dice) -> (Row, Row) {
    let row = match dice.below(16) {
        0 => Row::Void,
        1 => return (Row::Held(1_000_000_001), Row::Void),
        2 => return (free([1, 1, 1, -1], 0, 0), Row::Void),
        3..=9 => Row::Held(dice.temperature()),
        10 => random_free(dice, 1_000),
        _ => random_free(dice, 9),
    };
    (row, row)
}

// A table may end early; the cells past its end are void.
pub(crate) fn listed(heap: Global, dice: &mut Dice) -> Result<(Listed, Floor)> {
    let shape = Shape::new(dice.between(1, 4), dice.between(1, 4))?;
    let mut given = Vec::new(heap);
    let mut floor = Floor::new(heap, shape.wide, vec![in heap; Row::Void; shape.cells()]?);
    let missing = dice.index(12).saturating_sub(9);
    for cell in 0..shape.cells().saturating_sub(missing) {
        let (row, read) = random_row(dice);
        if floor.free_count() < 6 {
            given.push(row)?;
            floor.set(cell, read);
        } else {
            given.push(Row::Void)?;
        }
    }
    Ok((Listed::new(shape, given), floor))
}
