ghost use Rattle.std.specs.Prelude.{◌≤◌, pos, negsuc, ◌≤ℤ◌, unsigned_abs};

use crate::sides::Sides;

// A weight toward a free cell. Where a link leads to no free cell the weight is 0, and the
// arm points back at its own cell, so that an arm can always be read.
#[derive(Clone, Copy)]
pub struct Arm {
    pub weight: u16,
    pub cell: u16,
    ghost light: { weight ≤ 1000 },
}

// What one side of a free cell brings into its equation.
#[derive(Clone, Copy)]
pub struct Side {
    pub counts: u16,
    pub arm: Arm,
    pub given: i64,
    ghost few: { counts ≤ 1000 },
    ghost small: { unsigned_abs given ≤ 1000000000000 },
}

// The equation of a free cell: diagonal × entry = source + the sum over its arms.
#[derive(Clone, Copy)]
pub struct Stencil {
    pub arms: Sides<Arm>,
    pub diagonal: u16,
    pub source: i64,
    ghost diagonal_most: { diagonal ≤ 5000 },
    ghost source_least: { negsuc 4999999999999 ≤ℤ source },
    ghost source_most: { source ≤ℤ pos 5000000000000 },
}
