ghost use Rattle.std.specs.Prelude.{◌≡◌, ◌*◌, ◌<◌, ◌≤◌, pos, negsuc, ◌*ℤ◌, ◌≤ℤ◌};
ghost use Rattle.section.specs.Plan.{meant, plan_of};
ghost use Rattle.refusal.specs.Refusals.{Checked};
ghost use Rattle.ground.specs.Grounds.{ring_check, ring_cell, ring_free};

use crate::ground::Ground;
use refusal::types::Refusal;
use section::limits::{held_at, within};
use section::types::{FreeRecord, HeldRecord, Record, Shape};

// A section through a round tank whose axis lies along column 0: the links of a cell and
// its share of the heat grow with the radius.
#[derive(Clone, Copy)]
pub struct Ring {
    pub shape: Shape,
    pub top: HeldRecord,
    pub bottom: HeldRecord,
    pub last: HeldRecord,
    pub q: i64,
    ghost q_least: { negsuc 999999999 ≤ℤ q },
    ghost q_most: { q ≤ℤ pos 1000000000 },
}

impl Ring {
    pub fn new(shape: Shape, top: i64, bottom: i64, last: i64, q: i64) -> Result<Ring, Refusal>
        ensures { Checked result (ring_check top bottom last q) (λ s. (s.shape.wide ≡ shape.wide) × (s.shape.high ≡ shape.high) × (s.top.temperature ≡ top) × (s.bottom.temperature ≡ bottom) × (s.last.temperature ≡ last) × (s.q ≡ q)) }
    {
        let top = held_at(1, top)?;
        let bottom = held_at(2, bottom)?;
        let last = held_at(3, last)?;
        within(4, q, -1_000_000_000, 1_000_000_000)?;
        Ok(Ring {
            shape,
            top,
            bottom,
            last,
            q,
        })
    }

    fn heat(&self, part: u16) -> i64
        requires { part ≤ 1000 }
        ensures { (result ≡ self.now.q *ℤ pos part) × ((negsuc 999999999999 ≤ℤ result) × (result ≤ℤ pos 1000000000000)) }
    {
        self.q * part as i64
    }

    // The cell at a column covers 2 * column + 1 parts of the tank.
    fn free(&self, column: usize) -> FreeRecord
        requires { column < 64 }
        ensures { meant (Record.Free result) ≡ ring_free column self.now.q }
    {
        let part = 2 * column as u16 + 1;
        let (west, east) = (part - 1, part + 1);
        FreeRecord {
            north: part,
            west,
            east,
            south: part,
            loss: 0,
            heat: self.heat(part),
        }
    }

    fn cell(&self, index: usize) -> Record
        requires { index < self.now.shape.wide * self.now.shape.high }
        ensures { meant result ≡ ring_cell self.now.shape.wide self.now.shape.high self.now.top.temperature self.now.bottom.temperature self.now.last.temperature self.now.q index }
    {
        let row = index / self.shape.wide;
        let column = index % self.shape.wide;
        if row == 0 {
            Record::Held(self.top)
        } else if row + 1 == self.shape.high {
            Record::Held(self.bottom)
        } else if column + 1 == self.shape.wide {
            Record::Held(self.last)
        } else {
            Record::Free(self.free(column))
        }
    }
}

impl Ground for Ring {
    ghost plan = { λ s. plan_of s.shape.wide s.shape.high (ring_cell s.shape.wide s.shape.high s.top.temperature s.bottom.temperature s.last.temperature s.q) };

    fn shape(&self) -> Shape {
        self.shape
    }

    #[tactic(auto, using(crate::proofs::Plans::cells_in, crate::proofs::Plans::cells_out))]
    fn record(&self, index: usize) -> Record {
        if index < self.shape.cells() {
            self.cell(index)
        } else {
            Record::Void
        }
    }
}
