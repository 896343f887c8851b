use section::rows::{FreeRow, Row};
use std::alloc::{AllocError, Global};

// The program's own account of a floor: its rows as they were made, and as they now are.
#[derive(Drop)]
pub(crate) struct Floor {
    wide: usize,
    made: Vec<Row>,
    rows: Vec<Row>,
}

impl Floor {
    pub(crate) fn new(heap: Global, wide: usize, rows: Vec<Row>) -> Floor {
        let made = Vec::new(heap);
        Floor { wide, made, rows }
    }

    // From here on a release leads back to the rows as they are.
    pub(crate) fn begin(&mut self) -> Result<(), AllocError> {
        self.made = self.rows.clone()?;
        Ok(())
    }

    pub(crate) fn cells(&self) -> usize {
        self.rows.len()
    }

    pub(crate) fn row(&self, cell: usize) -> Row {
        self.rows.get(cell).copied().unwrap_or(Row::Void)
    }

    pub(crate) fn is_free(&self, cell: usize) -> bool {
        matches!(self.row(cell), Row::Free(_))
    }

    pub(crate) fn free_count(&self) -> usize {
        let free = self.rows.iter().filter(|row| matches!(row, Row::Free(_)));
        free.count()
    }

    pub(crate) fn set(&mut self, cell: usize, row: Row) {
        if let Some(place) = self.rows.get_mut(cell) {
            *place = row;
        }
    }

    pub(crate) fn release(&mut self, cell: usize) {
        if let Some(row) = self.made.get(cell) {
            let row = *row;
            self.set(cell, row);
        }
    }

    // A loss replaces that of a free cell and means nothing elsewhere.
    pub(crate) fn lose(&mut self, cell: usize, loss: i64) {
        if let Row::Free(free) = self.row(cell) {
            self.set(cell, Row::Free(FreeRow { loss, ..free }));
        }
    }

    fn column(&self, cell: usize) -> usize {
        cell.checked_rem(self.wide).unwrap_or(0)
    }

    // The links of a free cell: the weight of each and where it leads.
    pub(crate) fn links(&self, cell: usize, free: FreeRow) -> [(i64, Option<usize>); 4] {
        let next = cell.wrapping_add(1);
        let west = if self.column(cell) == 0 {
            None
        } else {
            cell.checked_sub(1)
        };
        let east = if self.column(next) == 0 {
            None
        } else {
            Some(next)
        };
        [
            (free.north, cell.checked_sub(self.wide)),
            (free.west, west),
            (free.east, east),
            (free.south, cell.checked_add(self.wide)),
        ]
    }
}
