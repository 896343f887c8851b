ghost use Rattle.coldfloor.specs.Floors.{floor_plan};

use crate::floor::Floor;
use ground::ground::Ground;
use ground::listed::Listed;
use ground::ring::Ring;
use ground::slab::Slab;
use refusal::types::Refusal;
use section::types::{Record, Shape};
use std::alloc::Global;

pub(crate) fn slab_floor(numbers: [i64; 7]) -> Result<Floor, Refusal> {
    let [wide, high, top, bottom, first, last, heat] = numbers;
    let shape = Shape::new(wide, high)?;
    Ok(Floor::Slab(Slab::new(shape, top, bottom, first, last, heat)?))
}

pub(crate) fn ring_floor(numbers: [i64; 6]) -> Result<Floor, Refusal> {
    let [wide, high, top, bottom, last, q] = numbers;
    let shape = Shape::new(wide, high)?;
    Ok(Floor::Ring(Ring::new(shape, top, bottom, last, q)?))
}

// A table that has no row yet.
pub(crate) fn listed_floor(heap: Global, numbers: [i64; 2]) -> Result<Floor, Refusal> {
    let [wide, high] = numbers;
    let shape = Shape::new(wide, high)?;
    Ok(Floor::Listed(Listed::new(shape, Vec::new(heap))))
}

impl Ground for Floor {
    ghost plan = { λ s. floor_plan s };

    fn shape(&self) -> Shape {
        match self {
            Floor::Slab(slab) => slab.shape(),
            Floor::Ring(ring) => ring.shape(),
            Floor::Listed(listed) => listed.shape(),
        }
    }

    fn record(&self, index: usize) -> Record {
        match self {
            Floor::Slab(slab) => slab.record(index),
            Floor::Ring(ring) => ring.record(index),
            Floor::Listed(listed) => listed.record(index),
        }
    }
}
