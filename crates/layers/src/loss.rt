ghost use Rattle.std.specs.Prelude.{◌≡◌, ℕ, ◌+◌, is_some, if◌then◌else◌, Some, None, unsigned_abs, refl};
ghost use Rattle.refusal.specs.Refusals.{answer, answer_of, unless_refused};
ghost use Rattle.layers.specs.Layers.{altered, losing, loss_at, loss_check, loss_plan};
ghost use Rattle.layers.specs.Tables.{lookup, used};

use crate::laid::Laid;
use crate::layer::{Layer, LossLayer};
use crate::table::{Loss, Table};
use ground::ground::Ground;
use refusal::types::Refusal;
use section::limits::within;
use section::types::{FreeRecord, Record};

impl Laid for Table<Loss, 16> {
    ghost laying = { λ t i c. losing (loss_at t.places i) c };

    ghost over_plan = { λ t p. loss_plan t.places p };

    ghost by_cells = { λ t p. refl };

    fn lay_over(&self, index: usize, below: Record) -> Record {
        match (self.find(index), below) {
            (Some(loss), Record::Free(c)) => Record::Free(FreeRecord {
                north: c.north,
                west: c.west,
                east: c.east,
                south: c.south,
                loss: loss.weight,
                heat: c.heat,
            }),
            _ => below,
        }
    }
}

impl<G> LossLayer<G> {
    pub fn new(below: G) -> LossLayer<G>
        ensures losses { (j : ℕ) → lookup result.table.places j ≡ None }
        ensures count { used result.table.places ≡ 0 }
        ensures kept { result.below ≡ below }
    {
        Layer {
            below,
            table: Table::new(),
        }
    }
}

impl<G: Ground> LossLayer<G> {
    pub fn put(&mut self, cell: usize, weight: i64) -> Result<(), Refusal>
        ensures answer { answer_of result ≡ answer (loss_check (G.plan self.old.below) self.old.table.places cell weight) tt }
        ensures losses { (j : ℕ) → loss_at self.new.table.places j ≡ unless_refused (loss_check (G.plan self.old.below) self.old.table.places cell weight) (loss_at self.old.table.places j) (altered (loss_at self.old.table.places) cell (Some (unsigned_abs weight)) j) }
        ensures count { used self.new.table.places ≡ unless_refused (loss_check (G.plan self.old.below) self.old.table.places cell weight) (used self.old.table.places) (if is_some (loss_at self.old.table.places cell) then used self.old.table.places else used self.old.table.places + 1) }
        ensures kept { self.new.below ≡ self.old.below }
    {
        if cell >= self.below.shape().cells() {
            return Err(Refusal::NoSuchCell(cell));
        }
        within(2, weight, 0, 1000)?;
        let loss = Loss {
            weight: weight as u16,
        };
        self.table.put(cell, loss)?;
        Ok(())
    }
}
