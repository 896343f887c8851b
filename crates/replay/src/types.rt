use refusal::types::Refusal;
use section::rows::{Majorant, Temperature};
use section::types::Bracket;
use steps::report::Raised;
use study::types::Certificate;

// A call of a study with what it is passed. Its grids are its own; the one bracket grid is passed
// beside the list of calls.
#[derive(Drop)]
pub enum Call {
    Relax {
        temperatures: Vec<Temperature>,
        factor: i64,
        walks: i64,
    },
    Raise {
        majorant: Vec<Majorant>,
        margin: i64,
        walks: i64,
    },
    Certify {
        temperatures: Vec<Temperature>,
        majorant: Vec<Majorant>,
    },
    Tighten {
        walks: i64,
    },
    Pin {
        cell: usize,
        temperature: i64,
    },
    Release {
        cell: usize,
    },
    Bracket {
        cell: usize,
    },
    OpenCount,
    Finished,
}

// What a call answered.
#[derive(Clone, Copy)]
pub enum Answer {
    Relaxed(Result<(usize, usize), Refusal>),
    Raised(Result<Raised, Refusal>),
    Certified(Result<Certificate, Refusal>),
    Tightened(Result<(usize, usize), Refusal>),
    Pinned(Result<(), Refusal>),
    Released(Result<(), Refusal>),
    Bracket(Result<Bracket, Refusal>),
    OpenCount(usize),
    Finished(bool),
}

// A call that was made, with its grids after it, and its answer.
#[derive(Drop)]
pub struct Event {
    pub call: Call,
    pub answer: Answer,
}
