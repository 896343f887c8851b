// How raising ended: the last walk changed nothing, every walk changed something, or a cell can
// have no entry.
#[derive(Clone, Copy)]
pub enum Report {
    Settled,
    Moving,
    NoneAt(usize),
}

// The report, and the walks begun with the cells changed in the last.
#[derive(Clone, Copy)]
pub struct Raised {
    pub report: Report,
    pub counts: (usize, usize),
}
