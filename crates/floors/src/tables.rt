use crate::fault::Result;
use crate::plans::{line, slab};
use crate::told::Changed;
use ground::ground::{Ground, free_cells};
use ground::slab::Slab;
use layers::layer::{LossLayer, PinLayer};
use std::io;

fn pin(
    rt: &HostRuntime,
    layer: &mut PinLayer<Slab>,
    cell: usize,
    temperature: i64,
) -> io::Result<()> {
    let answer = layer.pin(cell, temperature);
    let changed = Changed::new(answer, layer, cell);
    let free = free_cells(layer);
    println!(rt; "pin {cell} at {temperature}: {changed}, {free} free")
}

fn release(rt: &HostRuntime, layer: &mut PinLayer<Slab>, cell: usize) -> io::Result<()> {
    let answer = layer.release(cell);
    let changed = Changed::new(answer, layer, cell);
    let free = free_cells(layer);
    println!(rt; "release {cell}: {changed}, {free} free")
}

pub(crate) fn pins(rt: &HostRuntime) -> Result<()> {
    // The free cells are 5 and 6.
    let mut layer = PinLayer::new(slab(4, 3, 0)?);
    for (cell, temperature) in [(12, 8), (5, 1_000_000_001), (0, 8), (5, 8), (5, 9)] {
        pin(rt, &mut layer, cell, temperature)?;
    }
    for cell in [6, 5, 12] {
        release(rt, &mut layer, cell)?;
    }
    // Here 64 cells are free, 8 in each row inside, so four rows fill the table.
    let mut wide = PinLayer::new(slab(10, 10, 0)?);
    for row in 1..5 {
        for column in 1..9 {
            wide.pin(10 * row + column, 8)?;
        }
    }
    pin(rt, &mut wide, 51, 8)?;
    release(rt, &mut wide, 11)?;
    Ok(pin(rt, &mut wide, 51, 8)?)
}

fn lose<G: Ground>(
    rt: &HostRuntime,
    layer: &mut LossLayer<G>,
    cell: usize,
    weight: i64,
) -> io::Result<()> {
    let answer = layer.put(cell, weight);
    let changed = Changed::new(answer, layer, cell);
    println!(rt; "loss {weight} at {cell}: {changed}")
}

pub(crate) fn losses(rt: &HostRuntime) -> Result<()> {
    let mut layer = LossLayer::new(line(rt.alloc(), 17, 17)?);
    for cell in 0..16 {
        layer.put(cell, 5)?;
    }
    for (cell, weight) in [(16, 5), (3, 7), (15, 1000), (15, 1001)] {
        lose(rt, &mut layer, cell, weight)?;
    }
    let mut rim = LossLayer::new(slab(3, 3, 0)?);
    Ok(lose(rt, &mut rim, 0, 9)?)
}
