ghost use Rattle.std.specs.Prelude.{◌≡◌, ◌≤◌, true, length};
ghost use Rattle.layers.specs.Tables.{apart, used};

// A loss weight that replaces a free cell's own.
#[derive(Clone, Copy)]
pub struct Loss {
    pub weight: u16,
    ghost weight_most: { weight ≤ 1000 },
}

// A listed cell with what is laid on it.
#[derive(Clone, Copy)]
pub struct Entry<X> {
    pub cell: usize,
    pub laid: X,
}

// A layer's table: at most N cells, each listed once. How many there are is kept, so that a table
// with none is not searched.
#[derive(Drop)]
pub struct Table<X, const N: usize> {
    pub(crate) places: [Option<Entry<X>>; N],
    pub(crate) listed: usize,
    ghost full: { length places ≡ N },
    ghost once: { apart places ≡ true },
    ghost count: { listed ≡ used places },
}
