ghost use Rattle.std.specs.Prelude.{◌≡◌, pos, MatchResult};
ghost use Rattle.section.specs.Plan.{free_count, is_free_at};
ghost use Rattle.section.specs.Limits.{number as limited};
ghost use Rattle.refusal.specs.Refusals.{answer_of, Checked};
ghost use Rattle.study.specs.Calls.{run_check, relax_answer, relax_grid, raise_answer, raise_grid};
ghost use Rattle.study.specs.Studies.{equations_of, Fresh, Ready};

use crate::raise::raise_laid;
use crate::relax::relax_laid;
use crate::types::{State, Study};
use ground::ground::Ground;
use layers::layer::PinLayer;
use refusal::types::Refusal;
use section::limits::within;
use section::rows::{Majorant, Temperature};
use section::types::{Shape, Tolerance};
use std::alloc::{AllocFailed, Global};
use stencil::laid::LaidOut;
use steps::report::Raised;
use steps::rules::{Raise, Relax};

impl<G: Ground> Study<G> {
    // A study that is unproved and has no pin. It takes its memory here and nowhere else; where there
    // is none, the ground comes back.
    pub fn new(heap: Global, ground: G, tolerance: Tolerance) -> Result<Study<G>, AllocFailed<G>>
        ensures { MatchResult result (λ s. Fresh s ground tolerance × (s.«open» ≡ free_count (equations_of G.plan s))) (λ e. e.value ≡ ground) }
    {
        let layer = match LaidOut::new(heap, PinLayer::new(ground)) {
            Ok(layer) => layer,
            Err(failed) => {
                return Err(AllocFailed {
                    value: failed.value.below,
                });
            }
        };
        let open = layer.free_cells();
        Ok(Study {
            layer,
            tolerance,
            state: State::Unproved,
            open,
        })
    }

    pub fn shape(&self) -> Shape
        ensures wide { result.wide ≡ (G.plan self.now.layer.below).wide }
        ensures high { result.high ≡ (G.plan self.now.layer.below).high }
    {
        self.layer.shape()
    }

    // Whether a cell is free in the study's equations.
    pub fn is_free(&self, cell: usize) -> bool
        ensures { result ≡ is_free_at (equations_of G.plan self.now) cell }
    {
        self.layer.is_free(cell)
    }

    // The free cells with no bracket, or one wider than the tolerance.
    pub fn open_count(&self) -> usize
        ensures { result ≡ self.now.«open» }
    {
        self.open
    }

    // What a run with a number of its own is checked for first: its grid's length, that number and
    // its walks.
    fn ready(&self, length: usize, number: i64, most: i64, walks: i64) -> Result<(), Refusal>
        ensures { Checked result (run_check (equations_of G.plan self.now) length (limited number (pos 1) most) walks) (λ _. Ready (equations_of G.plan self.now) length (limited number (pos 1) most) walks) }
    {
        self.sized(length)?;
        within(1, number, 1, most)?;
        within(2, walks, 1, 1_000_000)
    }

    // Relaxes proposed temperatures by a factor in hundredths. Answers the walks begun and the cells
    // changed in the last.
    pub fn relax(
        &self,
        grid: &mut [Temperature],
        factor: i64,
        walks: i64,
    ) -> Result<(usize, usize), Refusal>
        ensures answer { answer_of result ≡ relax_answer (equations_of G.plan self.now) grid.old factor walks }
        ensures grid { grid.new ≡ relax_grid (equations_of G.plan self.now) grid.old factor walks }
    {
        self.ready(grid.len(), factor, 199, walks)?;
        relax_laid(&self.layer, grid, Relax { factor }, walks as usize)
    }

    // Raises a majorant from 0 toward a margin.
    pub fn raise(&self, grid: &mut [Majorant], margin: i64, walks: i64) -> Result<Raised, Refusal>
        ensures answer { answer_of result ≡ raise_answer (equations_of G.plan self.now) grid.old margin walks }
        ensures grid { grid.new ≡ raise_grid (equations_of G.plan self.now) grid.old margin walks }
    {
        self.ready(grid.len(), margin, 10_000, walks)?;
        Ok(raise_laid(&self.layer, grid, Raise { margin }, walks as usize))
    }
}
