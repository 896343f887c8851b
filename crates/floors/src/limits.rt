use crate::fault::Result;
use crate::told::Outcome;
use ground::ring::Ring;
use ground::slab::Slab;
use section::types::{Bracket, FreeRecord, HeldRecord, Shape, Tolerance};

pub(crate) fn shapes(rt: &HostRuntime) -> Result<()> {
    for (wide, high) in [(1, 1), (64, 64), (0, 1), (65, 1), (1, 0), (1, 65)] {
        let answer = Outcome(Shape::new(wide, high));
        println!(rt; "shape {wide} by {high}: {answer}")?;
    }
    for width in [0, 1_000_000_000, -1, 1_000_000_001] {
        let answer = Outcome(Tolerance::new(width));
        println!(rt; "tolerance {width}: {answer}")?;
    }
    for (lo, hi) in [
        (-2_000_000_000, 2_000_000_000),
        (-2_000_000_001, 2_000_000_000),
        (-2_000_000_000, 2_000_000_001),
        (1, 0),
    ] {
        let answer = Outcome(Bracket::new(lo, hi));
        println!(rt; "bracket {lo} to {hi}: {answer}")?;
    }
    Ok(())
}

pub(crate) fn records(rt: &HostRuntime) -> Result<()> {
    for (north, west, east, south, loss, heat) in [
        (1000, 1000, 1000, 1000, 1000, 1_000_000_000_000),
        (0, 0, 0, 0, 0, -1_000_000_000_000),
        (1001, 1000, 1000, 1000, 1000, 1_000_000_000_000),
        (1000, 1001, 1000, 1000, 1000, 1_000_000_000_000),
        (1000, 1000, 1001, 1000, 1000, 1_000_000_000_000),
        (1000, 1000, 1000, 1001, 1000, 1_000_000_000_000),
        (1000, 1000, 1000, 1000, 1001, 1_000_000_000_000),
        (1000, 1000, 1000, 1000, 1000, 1_000_000_000_001),
        (-1, 1000, 1000, 1000, 1000, 1_000_000_000_000),
        (1000, 1000, 1000, 1000, 1000, -1_000_000_000_001),
    ] {
        let answer = Outcome(FreeRecord::new(north, west, east, south, loss, heat));
        println!(rt; "free {north} {west} {east} {south} {loss} {heat}: {answer}")?;
    }
    for temperature in [1_000_000_000, -1_000_000_000, 1_000_000_001, -1_000_000_001] {
        let answer = Outcome(HeldRecord::new(temperature));
        println!(rt; "held {temperature}: {answer}")?;
    }
    Ok(())
}

pub(crate) fn floors(rt: &HostRuntime) -> Result<()> {
    let shape = Shape::new(3, 3)?;
    for (top, bottom, first, last, heat) in [
        (
            1_000_000_000,
            1_000_000_000,
            1_000_000_000,
            1_000_000_000,
            1_000_000_000_000,
        ),
        (1_000_000_001, 0, 0, 0, 0),
        (0, 1_000_000_001, 0, 0, 0),
        (0, 0, 1_000_000_001, 0, 0),
        (0, 0, 0, 1_000_000_001, 0),
        (0, 0, 0, 0, 1_000_000_000_001),
    ] {
        let answer = Outcome(Slab::new(shape, top, bottom, first, last, heat));
        println!(rt; "slab {top} {bottom} {first} {last} {heat}: {answer}")?;
    }
    for q in [1_000_000_000, 1_000_000_001] {
        let answer = Outcome(Ring::new(shape, 0, 0, 0, q));
        println!(rt; "ring 0 0 0 {q}: {answer}")?;
    }
    Ok(())
}
