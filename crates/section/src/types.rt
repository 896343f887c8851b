ghost use Rattle.std.specs.Prelude.{◌≤◌, pos, negsuc, ◌≤ℤ◌};

// The columns and rows of a section.
#[derive(Clone, Copy, Debug, PartialEq, Eq)]
pub struct Shape {
    pub wide: usize,
    pub high: usize,
    ghost wide_least: { 1 ≤ wide },
    ghost wide_most: { wide ≤ 64 },
    ghost high_least: { 1 ≤ high },
    ghost high_most: { high ≤ 64 },
}

// A cell whose temperature is sought: its conductances to the four sides, its loss
// toward the surroundings, and the heat released in it.
#[derive(Clone, Copy, Debug, PartialEq, Eq)]
pub struct FreeRecord {
    pub north: u16,
    pub west: u16,
    pub east: u16,
    pub south: u16,
    pub loss: u16,
    pub heat: i64,
    ghost north_most: { north ≤ 1000 },
    ghost west_most: { west ≤ 1000 },
    ghost east_most: { east ≤ 1000 },
    ghost south_most: { south ≤ 1000 },
    ghost loss_most: { loss ≤ 1000 },
    ghost heat_least: { negsuc 999999999999 ≤ℤ heat },
    ghost heat_most: { heat ≤ℤ pos 1000000000000 },
}

// A cell whose temperature is given, in millionths of a degree.
#[derive(Clone, Copy, Debug, PartialEq, Eq)]
pub struct HeldRecord {
    pub temperature: i64,
    ghost coldest: { negsuc 999999999 ≤ℤ temperature },
    ghost hottest: { temperature ≤ℤ pos 1000000000 },
}

#[derive(Clone, Copy, Debug, PartialEq, Eq)]
pub enum Record {
    Free(FreeRecord),
    Held(HeldRecord),
    Void,
}

// The width at which a bracket is narrow enough.
#[derive(Clone, Copy, Debug, PartialEq, Eq)]
pub struct Tolerance {
    pub width: i64,
    ghost width_least: { pos 0 ≤ℤ width },
    ghost width_most: { width ≤ℤ pos 1000000000 },
}

// The lowest and the highest temperature that a cell can have.
#[derive(Clone, Copy, Debug, PartialEq, Eq)]
pub struct Bracket {
    pub lo: i64,
    pub hi: i64,
    ghost lo_least: { negsuc 1999999999 ≤ℤ lo },
    ghost hi_most: { hi ≤ℤ pos 2000000000 },
    ghost ordered: { lo ≤ℤ hi },
}
