ghost use Rattle.std.specs.Prelude.{◌≡◌, ◌<◌, ◌↔◌, length, IfOk, IsSome, OnSome, IfNone, vec_len, slice_set};

use crate::command::{Entry, Grid};
use crate::fault::Untimely;
use section::rows::{BracketRow, Majorant, Temperature};
use std::alloc::{AllocError, Global};

// The grids that a study's calls are passed. They belong to the script, which may write any
// number into them and give them any length.
#[derive(Drop)]
pub(crate) struct Grids {
    pub(crate) temperatures: Vec<Temperature>,
    pub(crate) majorant: Vec<Majorant>,
    pub(crate) brackets: Vec<BracketRow>,
}

// The longest that a script may make a grid.
pub(crate) const MOST_ENTRIES: usize = 100_000;

const NO_TEMPERATURE: Temperature = Temperature { value: 0 };

const NO_MAJORANT: Majorant = Majorant { value: 0 };

const NO_BRACKET: BracketRow = BracketRow { lo: 0, hi: 0 };

impl Grids {
    pub(crate) fn new(heap: Global, cells: usize) -> Result<Grids, AllocError>
        ensures { IfOk result (λ g. (vec_len g.temperatures ≡ cells) × (vec_len g.majorant ≡ cells) × (vec_len g.brackets ≡ cells)) }
    {
        Ok(Grids {
            temperatures: vec![in heap; NO_TEMPERATURE; cells]?,
            majorant: vec![in heap; NO_MAJORANT; cells]?,
            brackets: vec![in heap; NO_BRACKET; cells]?,
        })
    }

    pub(crate) fn entries(&self, grid: Grid) -> usize {
        match grid {
            Grid::Temperatures => self.temperatures.len(),
            Grid::Majorant => self.majorant.len(),
            Grid::Brackets => self.brackets.len(),
        }
    }

    // Cuts a grid, or adds entries of 0.
    pub(crate) fn resize(&mut self, grid: Grid, count: usize) -> Result<(), AllocError> {
        match grid {
            Grid::Temperatures => self.temperatures.resize(count, NO_TEMPERATURE),
            Grid::Majorant => self.majorant.resize(count, NO_MAJORANT),
            Grid::Brackets => self.brackets.resize(count, NO_BRACKET),
        }
    }

    pub(crate) fn write(&mut self, cell: usize, entry: Entry) -> Result<(), Untimely> {
        let written = match entry {
            Entry::Temperature(value) => put(&mut self.temperatures, cell, value),
            Entry::Majorant(value) => put(&mut self.majorant, cell, value),
            Entry::Bracket(row) => put(&mut self.brackets, cell, row),
        };
        written.ok_or(Untimely::PastEnd {
            grid: entry.grid(),
            cell,
        })
    }
}

// None where the cell is past the end.
fn put<T: Copy>(entries: &mut [T], cell: usize, entry: T) -> Option<()>
    ensures within { IsSome result ↔ (cell < length entries.old) }
    ensures written { OnSome result (entries.new ≡ slice_set entries.old cell entry) }
    ensures past { IfNone result (entries.new ≡ entries.old) }
{
    if cell >= entries.len() {
        return None;
    }
    entries[cell] = entry;
    Some(())
}
