// Plain numbers as they lie in a caller's table or grid, in or out of limits.

// A row of a table of records.
#[derive(Clone, Copy, Debug, PartialEq, Eq)]
pub enum Row {
    Free(FreeRow),
    Held(i64),
    Void,
}

#[derive(Clone, Copy, Debug, PartialEq, Eq)]
pub struct FreeRow {
    pub north: i64,
    pub west: i64,
    pub east: i64,
    pub south: i64,
    pub loss: i64,
    pub heat: i64,
}

// An entry of a grid of proposed temperatures, in millionths of a degree.
#[derive(Clone, Copy, Debug, PartialEq, Eq)]
pub struct Temperature {
    pub value: i64,
}

// An entry of a majorant: a grid whose weighted differences from its neighbours
// are at least some margin at every free cell.
#[derive(Clone, Copy, Debug, PartialEq, Eq)]
pub struct Majorant {
    pub value: i64,
}

// A row of a grid of brackets.
#[derive(Clone, Copy, Debug, PartialEq, Eq)]
pub struct BracketRow {
    pub lo: i64,
    pub hi: i64,
}
