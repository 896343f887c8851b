use section::rows::{BracketRow, Majorant, Row, Temperature};
use std::fmt;

// The grids of a study.
#[derive(Clone, Copy)]
pub(crate) enum Grid {
    Temperatures,
    Majorant,
    Brackets,
}

impl Grid {
    pub(crate) fn named(word: &[u8]) -> Option<Grid> {
        match word {
            b"temperatures" => Some(Grid::Temperatures),
            b"majorant" => Some(Grid::Majorant),
            b"brackets" => Some(Grid::Brackets),
            _ => None,
        }
    }
}

impl fmt::Display for Grid {
    fn fmt<W: fmt::Write>(&self, f: &mut fmt::Formatter<W>) -> fmt::Result {
        f.write_str(match self {
            Grid::Temperatures => "temperatures",
            Grid::Majorant => "majorant",
            Grid::Brackets => "brackets",
        })
    }
}

// An entry to be written into the grid of its kind.
#[derive(Clone, Copy)]
pub(crate) enum Entry {
    Temperature(Temperature),
    Majorant(Majorant),
    Bracket(BracketRow),
}

impl Entry {
    pub(crate) fn grid(self) -> Grid {
        match self {
            Entry::Temperature(_) => Grid::Temperatures,
            Entry::Majorant(_) => Grid::Majorant,
            Entry::Bracket(_) => Grid::Brackets,
        }
    }
}

// A command with its numbers, in or out of limits. A ground has its numbers in the script's order.
#[derive(Clone, Copy)]
pub(crate) enum Command {
    Slab([i64; 7]),
    Ring([i64; 6]),
    Listed([i64; 2]),
    Row(Row),
    Loss { cell: usize, weight: i64 },
    Study { tolerance: i64 },
    Pin { cell: usize, temperature: i64 },
    Release { cell: usize },
    Relax { factor: i64, walks: i64 },
    Raise { margin: i64, walks: i64 },
    Certify,
    Tighten { walks: i64 },
    Bracket { cell: usize },
    Open,
    Finished,
    Show(Grid),
    Write { cell: usize, entry: Entry },
    Length { grid: Grid, count: usize },
}
