ghost use Rattle.std.specs.Prelude.{◌≡◌, ℕ, ◌+◌, ◌-◌, false, is_some, Some, None, MatchResult, nat_le, refl};
ghost use Rattle.refusal.specs.Refusals.{refuse, when, fault, fault_of, answer, answer_of, unless_refused};
ghost use Rattle.refusal.specs.declared.types.Level.TheVariants.{Table as AtTable};
ghost use Rattle.layers.specs.Layers.{altered, over, pin_check, pin_plan, pinned_at, release_check};
ghost use Rattle.layers.specs.Tables.{lookup, used};

use crate::laid::Laid;
use crate::layer::{Layer, PinLayer};
use crate::table::Table;
use ground::ground::Ground;
use refusal::types::Refusal;
use section::limits::held_at;
use section::types::{HeldRecord, Record};

impl Laid for Table<HeldRecord, 32> {
    ghost laying = { λ t i c. over (pinned_at t.places i) c };

    ghost over_plan = { λ t p. pin_plan t.places p };

    ghost by_cells = { λ t p. refl };

    fn lay_over(&self, index: usize, below: Record) -> Record {
        self.find(index).map_or(below, Record::Held)
    }
}

impl<G> PinLayer<G> {
    pub fn new(below: G) -> PinLayer<G>
        ensures pins { (j : ℕ) → lookup result.table.places j ≡ None }
        ensures count { used result.table.places ≡ 0 }
        ensures kept { result.below ≡ below }
    {
        Layer {
            below,
            table: Table::new(),
        }
    }
}

impl<G: Ground> PinLayer<G> {
    // All that a pin is checked for, but whether the table has room.
    fn pinnable(&self, cell: usize, temperature: i64) -> Result<HeldRecord, Refusal>
        ensures { MatchResult result (λ h. (h.temperature ≡ temperature) × (is_some (lookup self.now.table.places cell) ≡ false) × (pin_check (G.plan self.now.below) self.now.table.places cell temperature ≡ when (nat_le 32 (used self.now.table.places)) (fault AtTable 5 cell))) (λ e. pin_check (G.plan self.now.below) self.now.table.places cell temperature ≡ refuse (fault_of e)) }
    {
        if cell >= self.below.shape().cells() {
            return Err(Refusal::NoSuchCell(cell));
        }
        let held = held_at(2, temperature)?;
        self.table.unlisted(cell)?;
        match self.below.record(cell) {
            Record::Free(_) => Ok(held),
            _ => Err(Refusal::NotFree(cell)),
        }
    }

    pub fn pin(&mut self, cell: usize, temperature: i64) -> Result<(), Refusal>
        ensures answer { answer_of result ≡ answer (pin_check (G.plan self.old.below) self.old.table.places cell temperature) tt }
        ensures pins { (j : ℕ) → pinned_at self.new.table.places j ≡ unless_refused (pin_check (G.plan self.old.below) self.old.table.places cell temperature) (pinned_at self.old.table.places j) (altered (pinned_at self.old.table.places) cell (Some temperature) j) }
        ensures count { used self.new.table.places ≡ unless_refused (pin_check (G.plan self.old.below) self.old.table.places cell temperature) (used self.old.table.places) (used self.old.table.places + 1) }
        ensures kept { self.new.below ≡ self.old.below }
    {
        let held = self.pinnable(cell, temperature)?;
        self.table.put(cell, held)?;
        Ok(())
    }

    pub fn release(&mut self, cell: usize) -> Result<(), Refusal>
        ensures answer { answer_of result ≡ answer (release_check (G.plan self.old.below) self.old.table.places cell) tt }
        ensures pins { (j : ℕ) → pinned_at self.new.table.places j ≡ unless_refused (release_check (G.plan self.old.below) self.old.table.places cell) (pinned_at self.old.table.places j) (altered (pinned_at self.old.table.places) cell None j) }
        ensures count { used self.new.table.places ≡ unless_refused (release_check (G.plan self.old.below) self.old.table.places cell) (used self.old.table.places) (used self.old.table.places - 1) }
        ensures kept { self.new.below ≡ self.old.below }
    {
        if cell >= self.below.shape().cells() {
            return Err(Refusal::NoSuchCell(cell));
        }
        self.table.remove(cell)?;
        Ok(())
    }
}
