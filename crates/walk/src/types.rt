use stencil::sides::Sides;
use stencil::types::Stencil;

// A free cell at its turn: its equation, its entry and the entries that its arms point at.
#[derive(Clone, Copy)]
pub struct Site<E> {
    pub stencil: Stencil,
    pub old: E,
    pub around: Sides<E>,
}

// What a cell does at its turn: keep its entry, take another, or stop the run.
#[derive(Clone, Copy)]
pub enum Turn<E> {
    Stay,
    Put(E),
    Stop,
}

// A walk that a step stopped: the cell, and the cells changed before it.
#[derive(Clone, Copy)]
pub struct Halted {
    pub cell: usize,
    pub changed: usize,
}

// A run that a step stopped: the cell, and the walks begun with the cells changed in the last.
#[derive(Clone, Copy)]
pub struct Stopped {
    pub cell: usize,
    pub counts: (usize, usize),
}
