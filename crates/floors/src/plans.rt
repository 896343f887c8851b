use crate::fault::Result;
use ground::ground::Ground;
use ground::listed::Listed;
use ground::ring::Ring;
use ground::slab::Slab;
use section::rows::{FreeRow, Row};
use section::types::{Record, Shape};
use std::alloc::Global;

// A slab with its sides at 0.
pub(crate) fn slab(wide: i64, high: i64, heat: i64) -> Result<Slab> {
    Ok(Slab::new(Shape::new(wide, high)?, 0, 0, 0, 0, heat)?)
}

// Free cells in a row, with weights 1, no loss and no heat.
pub(crate) fn line(heap: Global, wide: i64, count: usize) -> Result<Listed> {
    let row = Row::Free(FreeRow {
        north: 1,
        west: 1,
        east: 1,
        south: 1,
        loss: 0,
        heat: 0,
    });
    Ok(Listed::new(Shape::new(wide, 1)?, vec![in heap; row; count]?))
}

// The links of a ring's cell. The axis has no cell to the west, so its west link is left out.
pub(crate) fn links(rt: &HostRuntime) -> Result<()> {
    let shape = Shape::new(5, 3)?;
    let ring = Ring::new(shape, 0, 0, 0, 0)?;
    for cell in [7, 5] {
        if let Record::Free(free) = ring.record(cell) {
            let north = u32::from(free.north);
            let west = u32::from(free.west);
            let east = u32::from(free.east);
            let south = u32::from(free.south);
            let inward = if cell % shape.wide == 0 { 0 } else { west };
            let sum = north + inward + east + south;
            println!(rt;
                "ring cell {cell}: north {north}, west {west}, east {east}, south {south}, sum {sum}"
            )?;
        }
    }
    Ok(())
}
