use crate::arguments::Arguments;
use crate::command::{Command, Entry, Grid};
use crate::fault::Unread;
use crate::line::Line;
use section::rows::{BracketRow, FreeRow, Majorant, Row, Temperature};

fn free_row([north, west, east, south, loss, heat]: [i64; 6]) -> Row {
    Row::Free(FreeRow {
        north,
        west,
        east,
        south,
        loss,
        heat,
    })
}

// The type of the numbers that a command keeps, or the pattern that takes them apart, says how many
// it takes.
pub(crate) fn command_of<'a>(line: &'a Line<'a>) -> Result<Command, Unread<'a>> {
    let given = Arguments::of(line);
    match given.command {
        b"slab" => given.numbers().map(Command::Slab),
        b"ring" => given.numbers().map(Command::Ring),
        b"listed" => given.numbers().map(Command::Listed),
        b"free" => given.numbers().map(|row| Command::Row(free_row(row))),
        b"held" => given
            .numbers::<1>()
            .map(|[temperature]| Command::Row(Row::Held(temperature))),
        b"void" => given.numbers::<0>().map(|[]| Command::Row(Row::Void)),
        b"loss" => given
            .counted::<1>()
            .map(|(cell, [weight])| Command::Loss { cell, weight }),
        b"study" => given
            .numbers::<1>()
            .map(|[tolerance]| Command::Study { tolerance }),
        b"show" | b"write" | b"length" => grid_command_of(given),
        _ => study_command_of(given),
    }
}

// The commands that name a grid.
fn grid_command_of(given: Arguments<'_>) -> Result<Command, Unread<'_>> {
    let (grid, given) = given.with_grid()?;
    match given.command {
        b"show" => given.numbers::<0>().map(|[]| Command::Show(grid)),
        b"length" => given
            .counted::<0>()
            .map(|(count, [])| Command::Length { grid, count }),
        _ => write_of(grid, given),
    }
}

// The other commands to a study.
fn study_command_of(given: Arguments<'_>) -> Result<Command, Unread<'_>> {
    match given.command {
        b"pin" => given
            .counted::<1>()
            .map(|(cell, [temperature])| Command::Pin { cell, temperature }),
        b"release" => given
            .counted::<0>()
            .map(|(cell, [])| Command::Release { cell }),
        b"relax" => given
            .numbers::<2>()
            .map(|[factor, walks]| Command::Relax { factor, walks }),
        b"raise" => given
            .numbers::<2>()
            .map(|[margin, walks]| Command::Raise { margin, walks }),
        b"certify" => given.numbers::<0>().map(|[]| Command::Certify),
        b"tighten" => given
            .numbers::<1>()
            .map(|[walks]| Command::Tighten { walks }),
        b"bracket" => given
            .counted::<0>()
            .map(|(cell, [])| Command::Bracket { cell }),
        b"open" => given.numbers::<0>().map(|[]| Command::Open),
        b"finished" => given.numbers::<0>().map(|[]| Command::Finished),
        _ => Err(Unread::NoCommand(given.command)),
    }
}

fn write_of(grid: Grid, given: Arguments<'_>) -> Result<Command, Unread<'_>> {
    let (cell, entry) = match grid {
        Grid::Temperatures => {
            let (cell, [value]) = given.counted::<1>()?;
            (cell, Entry::Temperature(Temperature { value }))
        }
        Grid::Majorant => {
            let (cell, [value]) = given.counted::<1>()?;
            (cell, Entry::Majorant(Majorant { value }))
        }
        Grid::Brackets => {
            let (cell, [lo, hi]) = given.counted::<2>()?;
            (cell, Entry::Bracket(BracketRow { lo, hi }))
        }
    };
    Ok(Command::Write { cell, entry })
}
