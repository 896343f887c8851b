use crate::command::Grid;
use crate::grids::MOST_ENTRIES;
use refusal::types::Refusal;
use std::alloc::{AllocError, AllocFailed};
use std::io::Write;
use std::{fmt, io};

// What is wrong with the words of a line.
#[derive(Clone, Copy)]
pub(crate) enum Unread<'a> {
    NoCommand(&'a [u8]),
    NoGrid(&'a [u8]),
    Signed(&'a [u8]),
    NoNumber(&'a [u8]),
    Count {
        command: &'a [u8],
        grid: Option<Grid>,
        count: usize,
    },
}

impl Unread<'_> {
    // A word may be any bytes, so this is written as bytes: printing would need text.
    pub(crate) fn write<W: Write>(self, out: &mut W) -> io::Result<()> {
        match self {
            Unread::NoCommand(word) => {
                out.write_all(b"unknown command ")?;
                quote(out, word)
            }
            Unread::NoGrid(command) => {
                out.write_all(command)?;
                out.write_all(b" takes temperatures, majorant or brackets")
            }
            Unread::Signed(word) => {
                quote(out, word)?;
                out.write_all(b" is not a whole number from 0")
            }
            Unread::NoNumber(word) => {
                quote(out, word)?;
                out.write_all(b" is not a whole number")
            }
            Unread::Count {
                command,
                grid,
                count,
            } => {
                out.write_all(command)?;
                if let Some(grid) = grid {
                    write!(out, " {grid}")?;
                }
                write!(out, " takes {count} numbers")
            }
        }
    }
}

fn quote<W: Write>(out: &mut W, word: &[u8]) -> io::Result<()> {
    out.write_all(b"'")?;
    out.write_all(word)?;
    out.write_all(b"'")
}

// Why a command that was read cannot be carried out where the script stands.
#[derive(Clone, Copy)]
pub(crate) enum Untimely {
    NoGround,
    NoTable,
    NoStudy,
    Entries {
        grid: Grid,
        entries: usize,
        cells: usize,
    },
    PastEnd {
        grid: Grid,
        cell: usize,
    },
    TooLong,
}

impl fmt::Display for Untimely {
    fn fmt<W: fmt::Write>(&self, f: &mut fmt::Formatter<W>) -> fmt::Result {
        match self {
            Untimely::NoGround => f.write_str("no ground yet"),
            Untimely::NoTable => f.write_str("no table is open"),
            Untimely::NoStudy => f.write_str("no study yet"),
            Untimely::Entries {
                grid,
                entries,
                cells,
            } => write!(f, "{grid} has {entries} entries, not {cells}"),
            Untimely::PastEnd { grid, cell } => write!(f, "cell {cell} is past the end of {grid}"),
            Untimely::TooLong => write!(f, "a grid has at most {MOST_ENTRIES} entries"),
        }
    }
}

// Why a command has no answer.
#[derive(Drop)]
pub(crate) enum Fault {
    Refused(Refusal),
    Untimely(Untimely),
    Memory(AllocError),
}

impl From<Refusal> for Fault {
    fn from(e: Refusal) -> Fault {
        Fault::Refused(e)
    }
}

impl From<Untimely> for Fault {
    fn from(e: Untimely) -> Fault {
        Fault::Untimely(e)
    }
}

impl From<AllocError> for Fault {
    fn from(e: AllocError) -> Fault {
        Fault::Memory(e)
    }
}

impl<T: Drop> From<AllocFailed<T>> for Fault {
    fn from(e: AllocFailed<T>) -> Fault {
        Fault::Memory(e.into())
    }
}
