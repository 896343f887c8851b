use crate::laid::Laid;
use crate::table::{Loss, Table};
use ground::ground::Ground;
use section::types::{HeldRecord, Record, Shape};

// The ground below with something laid on some of its cells.
#[derive(Drop)]
pub struct Layer<G, T> {
    pub below: G,
    pub table: T,
}

// The ground below with some cells held at temperatures of their own.
pub type PinLayer<G> = Layer<G, Table<HeldRecord, 32>>;

// The ground below with the loss weights of some free cells replaced.
pub type LossLayer<G> = Layer<G, Table<Loss, 16>>;

impl<G: Ground, T: Laid> Ground for Layer<G, T> {
    ghost plan = { λ s. T.Laid.over_plan s.table (G.Ground.plan s.below) };

    fn shape(&self) -> Shape {
        self.below.shape()
    }

    fn record(&self, index: usize) -> Record {
        if index < self.below.shape().cells() {
            self.table.lay_over(index, self.below.record(index))
        } else {
            Record::Void
        }
    }
}
