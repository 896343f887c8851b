ghost use Rattle.std.specs.Prelude.{◌≡◌, slice_index_or};
ghost use Rattle.section.specs.Plan.{plan_of};
ghost use Rattle.ground.specs.Grounds.{listed_cell};

use crate::ground::Ground;
use section::rows::Row;
use section::types::{Record, Shape};

// The caller's own table of rows, read row by row along the cells.
#[derive(Drop)]
pub struct Listed {
    pub shape: Shape,
    pub rows: Vec<Row>,
}

impl Listed {
    pub fn new(shape: Shape, rows: Vec<Row>) -> Listed
        ensures shape { result.shape ≡ shape }
        ensures rows { result.rows ≡ rows }
    {
        Listed { shape, rows }
    }

    // A table that ends too early is void from there on.
    fn row(&self, index: usize) -> Row
        ensures { result ≡ slice_index_or self.now.rows.items index Row.Void }
    {
        self.rows.get(index).copied().unwrap_or(Row::Void)
    }
}

impl Ground for Listed {
    ghost plan = { λ s. plan_of s.shape.wide s.shape.high (listed_cell s.rows.items) };

    fn shape(&self) -> Shape {
        self.shape
    }

    #[tactic(auto, using(crate::proofs::Plans::cells_in, crate::proofs::Plans::cells_out))]
    fn record(&self, index: usize) -> Record {
        if index < self.shape.cells() {
            Record::from(self.row(index))
        } else {
            Record::Void
        }
    }
}
