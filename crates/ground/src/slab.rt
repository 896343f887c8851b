ghost use Rattle.std.specs.Prelude.{◌≡◌, ◌*◌, ◌<◌, pos, negsuc, ◌≤ℤ◌};
ghost use Rattle.section.specs.Plan.{meant, plan_of};
ghost use Rattle.refusal.specs.Refusals.{Checked};
ghost use Rattle.ground.specs.Grounds.{slab_check, slab_cell};

use crate::ground::Ground;
use refusal::types::Refusal;
use section::limits::{held_at, within};
use section::types::{FreeRecord, HeldRecord, Record, Shape};

// A rectangle whose four sides are held. Every cell inside has the same heat and no loss.
#[derive(Clone, Copy)]
pub struct Slab {
    pub shape: Shape,
    pub top: HeldRecord,
    pub bottom: HeldRecord,
    pub first: HeldRecord,
    pub last: HeldRecord,
    pub heat: i64,
    ghost heat_least: { negsuc 999999999999 ≤ℤ heat },
    ghost heat_most: { heat ≤ℤ pos 1000000000000 },
}

impl Slab {
    pub fn new(
        shape: Shape,
        top: i64,
        bottom: i64,
        first: i64,
        last: i64,
        heat: i64,
    ) -> Result<Slab, Refusal>
        ensures { Checked result (slab_check top bottom first last heat) (λ s. (s.shape.wide ≡ shape.wide) × (s.shape.high ≡ shape.high) × (s.top.temperature ≡ top) × (s.bottom.temperature ≡ bottom) × (s.first.temperature ≡ first) × (s.last.temperature ≡ last) × (s.heat ≡ heat)) }
    {
        let top = held_at(1, top)?;
        let bottom = held_at(2, bottom)?;
        let first = held_at(3, first)?;
        let last = held_at(4, last)?;
        within(5, heat, -1_000_000_000_000, 1_000_000_000_000)?;
        Ok(Slab {
            shape,
            top,
            bottom,
            first,
            last,
            heat,
        })
    }

    // A corner belongs to the side that is asked first.
    fn cell(&self, index: usize) -> Record
        requires { index < self.now.shape.wide * self.now.shape.high }
        ensures { meant result ≡ slab_cell self.now.shape.wide self.now.shape.high self.now.top.temperature self.now.bottom.temperature self.now.first.temperature self.now.last.temperature self.now.heat index }
    {
        let row = index / self.shape.wide;
        let column = index % self.shape.wide;
        if row == 0 {
            Record::Held(self.top)
        } else if row + 1 == self.shape.high {
            Record::Held(self.bottom)
        } else if column == 0 {
            Record::Held(self.first)
        } else if column + 1 == self.shape.wide {
            Record::Held(self.last)
        } else {
            Record::Free(FreeRecord {
                north: 1,
                west: 1,
                east: 1,
                south: 1,
                loss: 0,
                heat: self.heat,
            })
        }
    }
}

impl Ground for Slab {
    ghost plan = { λ s. plan_of s.shape.wide s.shape.high (slab_cell s.shape.wide s.shape.high s.top.temperature s.bottom.temperature s.first.temperature s.last.temperature s.heat) };

    fn shape(&self) -> Shape {
        self.shape
    }

    #[tactic(auto, using(crate::proofs::Plans::cells_in, crate::proofs::Plans::cells_out))]
    fn record(&self, index: usize) -> Record {
        if index < self.shape.cells() {
            self.cell(index)
        } else {
            Record::Void
        }
    }
}
