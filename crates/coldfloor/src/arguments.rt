ghost use Rattle.std.specs.Prelude.{◌+◌, ◌^◌, ◌<◌};

use crate::command::Grid;
use crate::fault::Unread;
use crate::line::Line;

// The words that are left of a line after its command, and after its grid if it has named one.
#[derive(Clone, Copy)]
pub(crate) struct Arguments<'a> {
    pub(crate) command: &'a [u8],
    grid: Option<Grid>,
    words: &'a [&'a [u8]],
}

impl<'a> Arguments<'a> {
    pub(crate) fn of(line: &'a Line<'a>) -> Arguments<'a> {
        Arguments {
            command: line.command,
            grid: None,
            words: line.arguments.as_slice(),
        }
    }

    // The grid that the first names, and the others.
    pub(crate) fn with_grid(self) -> Result<(Grid, Arguments<'a>), Unread<'a>> {
        let no_grid = Unread::NoGrid(self.command);
        let (first, words) = self.words.split_first().ok_or(no_grid)?;
        let grid = Grid::named(first).ok_or(no_grid)?;
        let others = Arguments {
            command: self.command,
            grid: Some(grid),
            words,
        };
        Ok((grid, others))
    }

    // All of them as so many numbers.
    pub(crate) fn numbers<const N: usize>(self) -> Result<[i64; N], Unread<'a>> {
        numbers_of(self.words)?.ok_or(self.miscounted(N))
    }

    // The first as a cell or a length, from 0 up, and the others as so many numbers.
    pub(crate) fn counted<const N: usize>(self) -> Result<(usize, [i64; N]), Unread<'a>>
        requires { N + 1 < 2 ^ 64 }
    {
        let miscounted = self.miscounted(N + 1);
        let (first, others) = self.words.split_first().ok_or(miscounted)?;
        let first = count_of(first)?;
        let others = numbers_of(others)?.ok_or(miscounted)?;
        Ok((first, others))
    }

    fn miscounted(self, count: usize) -> Unread<'a> {
        Unread::Count {
            command: self.command,
            grid: self.grid,
            count,
        }
    }
}

// None where there are too few words or too many.
fn numbers_of<'a, const N: usize>(words: &[&'a [u8]]) -> Result<Option<[i64; N]>, Unread<'a>> {
    let mut numbers = [0; N];
    for (place, word) in words.iter().enumerate() {
        let number = number_of(word).ok_or(Unread::NoNumber(word))?;
        if place < N {
            numbers[place] = number;
        }
    }
    Ok((words.len() == N).then_some(numbers))
}

fn count_of(word: &[u8]) -> Result<usize, Unread<'_>> {
    if word.first() == Some(&b'-') {
        return Err(Unread::Signed(word));
    }
    let number = number_of(word).ok_or(Unread::NoNumber(word))?;
    usize::try_from(number).map_err(|_| Unread::Signed(word))
}

// The number of 64 bits that a word spells: digits, with '-' in front where it is negative.
fn number_of(word: &[u8]) -> Option<i64> {
    if word.first() == Some(&b'+') {
        return None;
    }
    std::str::from_utf8(word).ok()?.parse().ok()
}
