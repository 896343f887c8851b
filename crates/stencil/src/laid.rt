ghost use Rattle.std.specs.Prelude.{◌≡◌, Result, MatchResult, count_by};
ghost use Rattle.std.specs.List.{range_with_len};
ghost use Rattle.std.specs.Fn.{FnOnceReturnsAtMut};
ghost use Rattle.section.specs.Plan.{free_count, is_free_at};
ghost use Rattle.stencil.specs.Laying.{ChangedAt};
ghost use Rattle.stencil.specs.Stencils.{RowOf, Stands};

use crate::lay::{lay, lay_around};
use crate::types::Stencil;
use ground::ground::Ground;
use section::types::{Record, Shape};
use std::alloc::{AllocFailed, Global};
use std::marker::Model;

// A ground with its records read and its equations laid out, in room that it takes once: a caller
// sees the ground.
#[derive(Drop)]
pub struct LaidOut<G: Ground> {
    ground: G,
    records: Vec<Record>,
    rows: Vec<Option<Stencil>>,
}

impl<G: Ground> Model for LaidOut<G> {
    ghost use Rattle.std.specs.Prelude.{◌≤◌, vec_capacity};
    ghost use Rattle.stencil.specs.Laying.{LaidOf};

    ghost Value = { G };

    ghost view = { λ s. s.ground };

    ghost invariant = { λ s. (4096 ≤ vec_capacity s.records) × (4096 ≤ vec_capacity s.rows) × LaidOf (G.plan s.ground) s.records.items s.rows.items };
}

impl<G: Ground> LaidOut<G> {
    // Where there is no memory the ground comes back. For the crates above.
    pub fn new(heap: Global, ground: G) -> Result<LaidOut<G>, AllocFailed<G>>
        ensures { MatchResult result (λ laid. laid ≡ ground) (λ e. e.value ≡ ground) }
    {
        let Ok(mut records) = Vec::with_capacity(heap, 4096) else {
            return Err(AllocFailed { value: ground });
        };
        let Ok(mut rows) = Vec::with_capacity(heap, 4096) else {
            return Err(AllocFailed { value: ground });
        };
        lay(&ground, &mut records, &mut rows);
        Ok(LaidOut {
            ground,
            records,
            rows,
        })
    }

    // The equations, one for each free cell. For the crates above.
    pub fn rows(&self) -> &[Option<Stencil>]
        ensures { Stands (G.plan self.now) result.now }
    {
        &self.rows
    }

    // The equation of a cell, if it is free. For the crates above.
    pub fn row(&self, cell: usize) -> Option<Stencil>
        ensures { RowOf (G.plan self.now) cell result }
    {
        if cell < self.rows.len() {
            self.rows[cell]
        } else {
            None
        }
    }

    // Whether a cell has an equation. For the crates above.
    pub fn is_free(&self, cell: usize) -> bool
        ensures { result ≡ is_free_at (G.plan self.now) cell }
    {
        self.row(cell).is_some()
    }

    // How many cells have an equation: no record is asked for. For the crates above.
    pub fn free_cells(&self) -> usize
        ensures { result ≡ free_count (G.plan self.now) }
    {
        self.free_among(self.rows.len())
    }

    // How many of the first cells are free.
    fn free_among(&self, cells: usize) -> usize
        ensures { result ≡ count_by (is_free_at (G.plan self.now)) (range_with_len 0 cells) }
    {
        (0..cells).filter(|cell| self.is_free(*cell)).count()
    }

    // Alters the ground, and lays its equations out anew. For the crates above.
    pub fn update<R, F: FnOnce(&mut G) -> R>(&mut self, change: F) -> R
        requires { F.IsAlwaysCallable change }
        ensures { FnOnceReturnsAtMut F.FnOnce change self.old result self.new }
    {
        let answer = change(&mut self.ground);
        lay(&self.ground, &mut self.records, &mut self.rows);
        answer
    }

    // Alters the ground at one cell, if the change is not refused: the equations of the cells near
    // it are laid out anew. For the crates above.
    pub fn update_at<R, E, F: FnOnce(&mut G) -> Result<R, E>>(
        &mut self,
        cell: usize,
        change: F,
    ) -> Result<R, E>
        requires callable { F.IsAlwaysCallable change }
        requires alone { (r : Result R E) (after : G) → FnOnceReturnsAtMut F.FnOnce change self.old r after → MatchResult r (λ _. ChangedAt cell (G.plan self.old) (G.plan after)) (λ _. G.plan after ≡ G.plan self.old) }
        ensures { FnOnceReturnsAtMut F.FnOnce change self.old result self.new }
    {
        let answer = change(&mut self.ground);
        if answer.is_err() {
            return answer;
        }
        lay_around(&self.ground, cell, &mut self.records, &mut self.rows);
        answer
    }
}

impl<G: Ground> Ground for LaidOut<G> {
    ghost plan = { λ s. G.Ground.plan s };

    fn shape(&self) -> Shape {
        self.ground.shape()
    }

    fn record(&self, index: usize) -> Record {
        self.ground.record(index)
    }
}
