use crate::command::{Entry, Grid};
use crate::fault::{Fault, Untimely};
use crate::floor::Floor;
use crate::grids::{Grids, MOST_ENTRIES};
use ground::ground::Ground;
use layers::layer::LossLayer;
use std::alloc::{AllocError, Global};
use std::fmt::Display;
use study::types::Study;

// A study with the grids that its calls are passed.
#[derive(Drop)]
pub(crate) struct Work {
    pub(crate) heap: Global,
    pub(crate) study: Study<LossLayer<Floor>>,
    pub(crate) grids: Grids,
}

impl Work {
    pub(crate) fn open(&self) -> Result<String, Fault> {
        let open = self.study.open_count();
        Ok(format!(in self.heap; "open: {open}")?)
    }

    pub(crate) fn finished(&self) -> Result<String, Fault> {
        let answer = if self.study.finished() { "yes" } else { "no" };
        Ok(format!(in self.heap; "finished: {answer}")?)
    }

    pub(crate) fn pin(&mut self, cell: usize, temperature: i64) -> Result<String, Fault> {
        self.study.pin(cell, temperature)?;
        let open = self.study.open_count();
        Ok(format!(in self.heap; "pinned {cell} at {temperature}: {open} open")?)
    }

    pub(crate) fn release(&mut self, cell: usize) -> Result<String, Fault> {
        self.study.release(cell)?;
        let open = self.study.open_count();
        Ok(format!(in self.heap; "released {cell}: {open} open")?)
    }

    pub(crate) fn relax(&mut self, factor: i64, walks: i64) -> Result<String, Fault> {
        let (begun, changed) = self
            .study
            .relax(&mut self.grids.temperatures, factor, walks)?;
        Ok(format!(in self.heap; "relaxed: {begun} walks, {changed} changed")?)
    }

    pub(crate) fn raise(&mut self, margin: i64, walks: i64) -> Result<String, Fault> {
        let raised = self.study.raise(&mut self.grids.majorant, margin, walks)?;
        let (begun, changed) = raised.counts;
        let report = raised.report;
        Ok(format!(in self.heap; "raised: {report}, {begun} walks, {changed} changed")?)
    }

    pub(crate) fn certify(&mut self) -> Result<String, Fault> {
        let told = self.study.certify(
            &self.grids.temperatures,
            &self.grids.majorant,
            &mut self.grids.brackets,
        )?;
        let rest = told.rest;
        let margin = told.margin;
        let open = told.open;
        Ok(format!(in self.heap; "certified: rest {rest}, margin {margin}, {open} open")?)
    }

    pub(crate) fn tighten(&mut self, walks: i64) -> Result<String, Fault> {
        let (begun, changed) = self.study.tighten(&mut self.grids.brackets, walks)?;
        let open = self.study.open_count();
        Ok(format!(in self.heap; "tightened: {begun} walks, {changed} changed, {open} open")?)
    }

    pub(crate) fn bracket(&self, cell: usize) -> Result<String, Fault> {
        let bracket = self.study.bracket(&self.grids.brackets, cell)?;
        let lo = bracket.lo;
        let hi = bracket.hi;
        Ok(format!(in self.heap; "bracket at {cell}: {lo} to {hi}")?)
    }

    pub(crate) fn write(&mut self, cell: usize, entry: Entry) -> Result<String, Fault> {
        self.grids.write(cell, entry)?;
        let grid = entry.grid();
        Ok(format!(in self.heap; "written: {grid} at {cell}")?)
    }

    pub(crate) fn resize(&mut self, grid: Grid, count: usize) -> Result<String, Fault> {
        if count > MOST_ENTRIES {
            return Err(Untimely::TooLong.into());
        }
        self.grids.resize(grid, count)?;
        Ok(format!(in self.heap; "{grid}: {count} entries")?)
    }

    pub(crate) fn show(&self, grid: Grid) -> Result<String, Fault> {
        let cells = self.study.shape().cells();
        let entries = self.grids.entries(grid);
        if entries != cells {
            let untimely = Untimely::Entries {
                grid,
                entries,
                cells,
            };
            return Err(untimely.into());
        }
        Ok(match grid {
            Grid::Temperatures => self.lines(&self.grids.temperatures)?,
            Grid::Majorant => self.lines(&self.grids.majorant)?,
            Grid::Brackets => self.lines(&self.grids.brackets)?,
        })
    }

    // The entries at the free cells, a line for each row of the section.
    fn lines<T: Display>(&self, entries: &[T]) -> Result<String, AllocError> {
        let wide = self.study.shape().wide;
        let mut out = String::new(self.heap);
        for (cell, entry) in entries.iter().enumerate() {
            if cell > 0 {
                out.push_str(if cell % wide == 0 { "\n" } else { " " })?;
            }
            if self.study.is_free(cell) {
                write!(out, "{entry}")?;
            } else {
                out.push_str("-")?;
            }
        }
        Ok(out)
    }
}
