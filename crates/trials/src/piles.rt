use crate::desk::Desk;
use crate::dice::Dice;
use crate::fault::{Result, found};
use crate::floor::Floor;
use crate::series::Series;
use crate::tally::add_one;
use crate::trial::Trial;
use ground::ground::Ground;
use layers::layer::{LossLayer, PinLayer};
use replay::replay::replay;
use replay::types::{Call, Event};
use section::rows::{BracketRow, Row};
use section::types::Tolerance;
use std::alloc::AllocError;
use study::types::Study;

// A study with all that its calls are passed and checked by.
#[derive(Drop)]
struct Bench<G: Ground> {
    study: Study<G>,
    brackets: Vec<BracketRow>,
    desk: Desk,
    trial: Trial,
}

impl<G: Ground> Bench<G> {
    // Only the open count asked at once shows what a tightening in the list left open.
    fn calls(&self, series: &mut Series) -> Result<Vec<Call>, AllocError> {
        let mut list = Vec::new(series.heap);
        let dice = &mut series.dice;
        for _ in 0..dice.between(1, 12) {
            let cell = dice.index(self.brackets.len().saturating_add(1));
            let call = self.desk.call(dice, cell)?;
            let tightens = matches!(call, Call::Tighten { .. });
            list.push(call)?;
            if tightens {
                list.push(Call::OpenCount)?;
            }
        }
        Ok(list)
    }

    // Now and then the grid of brackets has the wrong length.
    fn work(&mut self, series: &mut Series, calls: Vec<Call>) -> Result<()> {
        let before = self.brackets.clone()?;
        let events = if series.dice.one_in(20) {
            let mut short = series.brackets(before.len().saturating_sub(1))?;
            found(replay(series.heap, &mut self.study, &mut short, calls))?
        } else {
            found(replay(series.heap, &mut self.study, &mut self.brackets, calls))?
        };
        for event in events {
            self.trial.read(series, &event)?;
            self.desk.keep(event.call);
        }
        self.trial.look(&mut series.tally, &before, &self.brackets);
        Ok(())
    }

    // The first list relaxes and raises, or no certificate would be accepted for long.
    fn run(&mut self, series: &mut Series) -> Result<()> {
        let relax = self.desk.relax(&mut series.dice)?;
        let raise = self.desk.raise(&mut series.dice)?;
        self.work(series, vec![in series.heap; relax, raise]?)?;
        for _ in 0..12 {
            let calls = self.calls(series)?;
            self.work(series, calls)?;
        }
        Ok(())
    }
}

fn losing<G: Ground>(dice: &mut Dice, ground: G, floor: &mut Floor) -> LossLayer<G> {
    let mut layer = LossLayer::new(ground);
    for _ in 0..dice.below(6) {
        let cell = dice.index(floor.cells().saturating_add(1));
        let weight = dice.mostly(0, 9, 1_001);
        if layer.put(cell, weight).is_ok() {
            floor.lose(cell, weight);
        }
    }
    layer
}

fn pinning<G: Ground>(dice: &mut Dice, ground: G, floor: &mut Floor) -> PinLayer<G> {
    let mut layer = PinLayer::new(ground);
    for _ in 0..dice.below(6) {
        let cell = dice.index(floor.cells().saturating_add(1));
        let temperature = dice.temperature();
        if layer.pin(cell, temperature).is_ok() {
            floor.set(cell, Row::Held(temperature));
        }
    }
    layer
}

impl Series {
    // Where nothing is proved the grid may hold anything, rows that make no bracket too.
    fn brackets(&mut self, count: usize) -> Result<Vec<BracketRow>, AllocError> {
        let dice = &mut self.dice;
        let rows = (0..count).map(|_| BracketRow {
            lo: dice.around(3_000_000_000),
            hi: dice.around(3_000_000_000),
        });
        rows.collect(self.heap)
    }

    fn study<G: Ground + Drop>(&mut self, ground: G, floor: Floor) -> Result<()> {
        let cells = floor.cells();
        let width = self.dice.width();
        let tolerance = Tolerance::new(width)?;
        let mut bench = Bench {
            study: found(Study::new(self.heap, ground, tolerance))?,
            brackets: self.brackets(cells)?,
            desk: Desk::new(self.heap, cells)?,
            trial: Trial::new(self.heap, floor, width)?,
        };
        add_one(&mut self.tally.studies);
        bench.run(self)
    }

    // A study on a ground alone, or on layers above it.
    pub(crate) fn pile<G: Ground + Drop>(&mut self, ground: G, mut floor: Floor) -> Result<()> {
        let dice = &mut self.dice;
        match dice.below(5) {
            0 | 1 => self.study(ground, floor),
            2 | 3 => {
                let lossy = losing(dice, ground, &mut floor);
                self.study(lossy, floor)
            }
            _ => {
                let pinned = pinning(dice, ground, &mut floor);
                let lossy = losing(dice, pinned, &mut floor);
                self.study(lossy, floor)
            }
        }
    }
}
