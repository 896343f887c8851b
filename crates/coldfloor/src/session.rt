use crate::command::Command;
use crate::fault::{Fault, Untimely};
use crate::floor::Floor;
use crate::grids::Grids;
use crate::grounds::{listed_floor, ring_floor, slab_floor};
use crate::stage::Stage;
use crate::work::Work;
use ground::ground::{Ground, free_cells};
use layers::layer::LossLayer;
use section::rows::Row;
use section::types::Tolerance;
use std::alloc::Global;
use std::mem;
use study::types::Study;

// A script as far as it has been carried out.
#[derive(Drop)]
pub(crate) struct Session {
    heap: Global,
    stage: Stage,
}

impl Session {
    pub(crate) fn new(heap: Global) -> Session {
        Session {
            heap,
            stage: Stage::Bare,
        }
    }

    // Carries a command out. The answer may have several lines; the last has no newline.
    pub(crate) fn carry_out(&mut self, command: Command) -> Result<String, Fault> {
        match command {
            Command::Slab(numbers) => self.begin(slab_floor(numbers)?),
            Command::Ring(numbers) => self.begin(ring_floor(numbers)?),
            Command::Listed(numbers) => self.begin(listed_floor(self.heap, numbers)?),
            Command::Row(row) => self.add(row),
            Command::Loss { cell, weight } => self.lose(cell, weight),
            Command::Study { tolerance } => self.study(tolerance),
            Command::Pin { cell, temperature } => self.stage.work()?.pin(cell, temperature),
            Command::Release { cell } => self.stage.work()?.release(cell),
            Command::Relax { factor, walks } => self.stage.work()?.relax(factor, walks),
            Command::Raise { margin, walks } => self.stage.work()?.raise(margin, walks),
            Command::Certify => self.stage.work()?.certify(),
            Command::Tighten { walks } => self.stage.work()?.tighten(walks),
            Command::Bracket { cell } => self.stage.work()?.bracket(cell),
            Command::Open => self.stage.work()?.open(),
            Command::Finished => self.stage.work()?.finished(),
            Command::Show(grid) => self.stage.work()?.show(grid),
            Command::Write { cell, entry } => self.stage.work()?.write(cell, entry),
            Command::Length { grid, count } => self.stage.work()?.resize(grid, count),
        }
    }

    // A new ground takes the place of what was there, a study too.
    fn begin(&mut self, floor: Floor) -> Result<String, Fault> {
        let shape = floor.shape();
        let wide = shape.wide;
        let high = shape.high;
        let free = free_cells(&floor);
        let answer = format!(in self.heap; "{floor}: {wide} by {high}, {free} free")?;
        self.stage = Stage::Ground(LossLayer::new(floor));
        Ok(answer)
    }

    fn add(&mut self, row: Row) -> Result<String, Fault> {
        let table = self.stage.table()?;
        let place = table.rows.len();
        table.rows.push(row)?;
        let kind = match row {
            Row::Free(_) => "free",
            Row::Held(_) => "held",
            Row::Void => "void",
        };
        Ok(format!(in self.heap; "row {place}: {kind}")?)
    }

    fn lose(&mut self, cell: usize, weight: i64) -> Result<String, Fault> {
        self.stage.ground()?.put(cell, weight)?;
        Ok(format!(in self.heap; "loss at {cell}: {weight}")?)
    }

    // A study uses its ground up; one that is refused leaves it.
    fn study(&mut self, tolerance: i64) -> Result<String, Fault> {
        let cells = self.stage.ground()?.shape().cells();
        let limit = Tolerance::new(tolerance)?;
        let grids = Grids::new(self.heap, cells)?;
        let Stage::Ground(layer) = mem::replace(&mut self.stage, Stage::Bare) else {
            return Err(Untimely::NoGround.into());
        };
        let study = Study::new(self.heap, layer, limit)?;
        let open = study.open_count();
        self.stage = Stage::Study(Work {
            heap: self.heap,
            study,
            grids,
        });
        Ok(format!(in self.heap; "study: tolerance {tolerance}, {open} open")?)
    }
}
