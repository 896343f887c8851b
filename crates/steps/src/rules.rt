ghost use Rattle.std.specs.Prelude.{◌≤◌, pos, ◌≤ℤ◌, unsigned_abs};

// Successive over-relaxation by a factor in hundredths.
#[derive(Clone, Copy)]
pub struct Relax {
    pub factor: i64,
    ghost factor_least: { pos 1 ≤ℤ factor },
    ghost factor_most: { factor ≤ℤ pos 199 },
}

// The equation of a cell that has one, over the entries around it, and the cell's own entry.
#[derive(Clone, Copy)]
pub(crate) struct Balance {
    pub(crate) diagonal: u16,
    pub(crate) sum: i64,
    pub(crate) old: i64,
    ghost some: { 1 ≤ diagonal },
    ghost few: { diagonal ≤ 5000 },
    ghost sum_most: { unsigned_abs sum ≤ 13000000000000 },
    ghost old_most: { unsigned_abs old ≤ 1000000000 },
}

// Raising a majorant toward a wanted margin.
#[derive(Clone, Copy)]
pub struct Raise {
    pub margin: i64,
    ghost margin_least: { pos 1 ≤ℤ margin },
    ghost margin_most: { margin ≤ℤ pos 10000 },
}

// Tightening brackets.
#[derive(Clone, Copy)]
pub struct Tighten;
