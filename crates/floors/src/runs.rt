use crate::fault::Result;
use crate::plans::{line, slab};
use crate::told::Refused;
use section::rows::{BracketRow, Majorant, Temperature};
use section::types::Tolerance;
use study::types::Study;

// Two cells that nothing holds gain 2 by each walk, until one would pass 500,000.
pub(crate) fn climbing(rt: &HostRuntime) -> Result<()> {
    let heap = rt.alloc();
    let study = Study::new(heap, line(heap, 2, 2)?, Tolerance::new(0)?)?;
    for walks in [250_000, 250_001] {
        let mut grid = vec![in heap; Majorant { value: 0 }; 2]?;
        let raised = study.raise(&mut grid, 1, walks)?;
        let (begun, changed) = raised.counts;
        let end = raised.report;
        println!(rt; "raise 1 by {walks} walks: {end}, {begun} begun, {changed} changed")?;
        for entry in &grid {
            println!(rt; "  {entry}")?;
        }
    }
    Ok(())
}

// A majorant at its limits and past them, over one cell with four held neighbours and heat 4.
pub(crate) fn majorants(rt: &HostRuntime) -> Result<()> {
    let heap = rt.alloc();
    let mut study = Study::new(heap, slab(3, 3, 4)?, Tolerance::new(0)?)?;
    let temperatures = vec![in heap; Temperature { value: 0 }; 9]?;
    let mut brackets = vec![in heap; BracketRow { lo: 0, hi: 0 }; 9]?;
    for value in [-1, 0, 1, 500_000, 500_001] {
        let majorant = vec![in heap; Majorant { value }; 9]?;
        match study.certify(&temperatures, &majorant, &mut brackets) {
            Ok(told) => {
                let rest = told.rest;
                let margin = told.margin;
                println!(rt; "majorant {value}: rest {rest}, margin {margin}")?;
            }
            Err(refusal) => {
                let refused = Refused(refusal);
                println!(rt; "majorant {value}: {refused}")?;
            }
        }
    }
    Ok(())
}
