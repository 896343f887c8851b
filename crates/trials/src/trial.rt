use crate::exact::Exact;
use crate::floor::Floor;
use crate::series::Series;
use crate::tally::{Tally, add_one};
use refusal::types::Refusal;
use replay::types::{Answer, Call, Event};
use section::rows::{BracketRow, Row};
use std::alloc::{AllocError, Global};

const WIDEST: i64 = 2_000_000_000;

// Whether brackets are proved, and since when.
#[derive(Clone, Copy, PartialEq, Eq)]
enum State {
    Unproved,
    Proved,
    // Without a break since the last look at the grid.
    ProvedSinceLook,
}

// The open count. Where brackets have changed since it was known, it can only have fallen.
#[derive(Clone, Copy)]
enum Open {
    Exactly(usize),
    AtMost(usize),
}

impl Open {
    fn most(self) -> usize {
        match self {
            Open::Exactly(cells) | Open::AtMost(cells) => cells,
        }
    }

    fn may_be(self, open: usize) -> bool {
        match self {
            Open::Exactly(cells) => open == cells,
            Open::AtMost(cells) => open <= cells,
        }
    }
}

// What must hold of a study, followed from its events alone.
#[derive(Drop)]
pub(crate) struct Trial {
    floor: Floor,
    tolerance: i64,
    exact: Option<Exact>,
    state: State,
    open: Open,
}

// The ends of a bracket as the grid is read.
fn read(row: BracketRow) -> (i64, i64) {
    if row.lo < -WIDEST || row.hi > WIDEST || row.lo > row.hi {
        return (-WIDEST, WIDEST);
    }
    (row.lo, row.hi)
}

fn is_refused(answer: Answer) -> bool {
    matches!(
        answer,
        Answer::Relaxed(Err(_))
            | Answer::Raised(Err(_))
            | Answer::Certified(Err(_))
            | Answer::Tightened(Err(_))
            | Answer::Pinned(Err(_))
            | Answer::Released(Err(_))
            | Answer::Bracket(Err(_))
    )
}

impl Trial {
    pub(crate) fn new(heap: Global, mut floor: Floor, tolerance: i64) -> Result<Trial, AllocError> {
        floor.begin()?;
        Ok(Trial {
            tolerance,
            exact: Exact::new(heap, &floor)?,
            state: State::Unproved,
            open: Open::Exactly(floor.free_count()),
            floor,
        })
    }

    fn is_proved(&self) -> bool {
        self.state != State::Unproved
    }

    fn compare(&self, tally: &mut Tally, cell: usize, lo: i64, hi: i64) {
        match &self.exact {
            None => add_one(&mut tally.passed_over),
            Some(exact) => {
                add_one(&mut tally.compared);
                if !self.is_proved() || !exact.lies(cell, lo, hi) {
                    add_one(&mut tally.outside);
                }
            }
        }
    }

    fn count(&mut self, tally: &mut Tally, open: usize) {
        if !self.open.may_be(open) {
            add_one(&mut tally.wrong);
        }
        self.open = Open::Exactly(open);
    }

    fn changed(&mut self) {
        self.open = Open::AtMost(self.open.most());
    }

    fn certified(&mut self, tally: &mut Tally, open: usize) {
        add_one(&mut tally.certificates);
        if !self.is_proved() {
            self.state = State::Proved;
        }
        self.changed();
        self.count(tally, open);
    }

    // After a pin or a release nothing is proved, and every free cell is open.
    fn altered(&mut self, heap: Global, call: &Call) -> Result<(), AllocError> {
        match call {
            Call::Pin { cell, temperature } => self.floor.set(*cell, Row::Held(*temperature)),
            Call::Release { cell } => self.floor.release(*cell),
            _ => {}
        }
        self.exact = Exact::new(heap, &self.floor)?;
        self.state = State::Unproved;
        self.open = Open::Exactly(self.floor.free_count());
        Ok(())
    }

    // A tightening that is stopped on its walk has changed brackets too.
    pub(crate) fn read(&mut self, series: &mut Series, event: &Event) -> Result<(), AllocError> {
        let tally = &mut series.tally;
        add_one(&mut tally.calls);
        if is_refused(event.answer) {
            add_one(&mut tally.refused);
        }
        match (&event.call, event.answer) {
            (_, Answer::Certified(Ok(certificate))) => self.certified(tally, certificate.open),
            (_, Answer::Tightened(Ok(_) | Err(Refusal::Walk(_)))) => self.changed(),
            (_, Answer::OpenCount(open)) => self.count(tally, open),
            (call, Answer::Pinned(Ok(())) | Answer::Released(Ok(()))) => {
                self.altered(series.heap, call)?
            }
            (Call::Bracket { cell }, Answer::Bracket(Ok(bracket))) => {
                self.compare(tally, *cell, bracket.lo, bracket.hi)
            }
            (_, Answer::Finished(finished)) => {
                if finished != (self.is_proved() && self.open.most() == 0) {
                    add_one(&mut tally.wrong);
                }
            }
            _ => {}
        }
        Ok(())
    }

    // Looks at the bracket of a free cell, and answers whether it is open.
    fn look_at(&self, tally: &mut Tally, cell: usize, old: BracketRow, new: BracketRow) -> bool {
        let (lowest, highest) = read(old);
        let (lo, hi) = read(new);
        self.compare(tally, cell, lo, hi);
        if self.state == State::ProvedSinceLook && (lo < lowest || hi > highest) {
            add_one(&mut tally.widened);
        }
        hi.saturating_sub(lo) > self.tolerance
    }

    // Looks at the grid of brackets before and after a list of calls.
    pub(crate) fn look(&mut self, tally: &mut Tally, before: &[BracketRow], after: &[BracketRow]) {
        if !self.is_proved() {
            return;
        }
        let mut open = 0;
        for (cell, (old, new)) in before.iter().zip(after.iter()).enumerate() {
            if self.floor.is_free(cell) && self.look_at(tally, cell, *old, *new) {
                add_one(&mut open);
            }
        }
        self.count(tally, open);
        self.state = State::ProvedSinceLook;
    }
}
