// What came of a call, in a planner's words.
use crate::floor::row_and_column;
use refusal::types::Refusal;
use replay::types::{Answer, Call, Event};
use std::fmt;
use std::fmt::{Display, Formatter};
use steps::report::{Raised, Report};

// A number with a comma before its last three digits.
#[derive(Clone, Copy)]
pub(crate) struct Thousands(pub(crate) usize);

impl Display for Thousands {
    fn fmt<W: fmt::Write>(&self, f: &mut Formatter<W>) -> fmt::Result {
        let (thousands, rest) = (self.0 / 1000, self.0 % 1000);
        if thousands == 0 {
            return write!(f, "{rest}");
        }
        write!(f, "{thousands},{rest:03}")
    }
}

// A temperature, written in degrees to the last millionth.
#[derive(Clone, Copy)]
struct Degrees(i64);

impl Display for Degrees {
    fn fmt<W: fmt::Write>(&self, f: &mut Formatter<W>) -> fmt::Result {
        let sign = if self.0 < 0 { "-" } else { "" };
        let size = self.0.unsigned_abs();
        let (whole, part) = (size / 1_000_000, size % 1_000_000);
        let tenths = part / 100_000;
        if part % 100_000 == 0 {
            return write!(f, "{sign}{whole}.{tenths}");
        }
        write!(f, "{sign}{whole}.{part:06}")
    }
}

// A cell by its row and column.
#[derive(Clone, Copy)]
struct Place(usize);

impl Display for Place {
    fn fmt<W: fmt::Write>(&self, f: &mut Formatter<W>) -> fmt::Result {
        let (row, column) = row_and_column(self.0);
        write!(f, "row {row}, column {column}")
    }
}

// The walks that were made, with the cells changed in the last.
#[derive(Clone, Copy)]
struct Walks((usize, usize));

impl Display for Walks {
    fn fmt<W: fmt::Write>(&self, f: &mut Formatter<W>) -> fmt::Result {
        let (walks, changed) = self.0;
        let (walks, changed) = (Thousands(walks), Thousands(changed));
        write!(f, "{walks} walks ({changed} cells in the last)")
    }
}

// What a call was to do.
#[derive(Clone, Copy)]
struct Asked<'a>(&'a Call);

impl Display for Asked<'_> {
    fn fmt<W: fmt::Write>(&self, f: &mut Formatter<W>) -> fmt::Result {
        match self.0 {
            Call::Relax { .. } => f.write_str("relaxing"),
            Call::Raise { .. } => f.write_str("raising the majorant"),
            Call::Certify { .. } => f.write_str("certifying"),
            Call::Tighten { .. } => f.write_str("tightening"),
            Call::Pin { cell, .. } => write!(f, "pinning {}", Place(*cell)),
            Call::Release { cell } => write!(f, "releasing {}", Place(*cell)),
            Call::Bracket { cell } => write!(f, "asking for {}", Place(*cell)),
            Call::OpenCount => f.write_str("counting"),
            Call::Finished => f.write_str("asking for the end"),
        }
    }
}

fn refused<W: fmt::Write>(f: &mut Formatter<W>, call: &Call, refusal: Refusal) -> fmt::Result {
    let (asked, number, cause) = (Asked(call), refusal.number(), Refusal::cause(refusal));
    write!(f, "{asked} is refused ({number}): {cause}")?;
    match refusal {
        Refusal::Margin(cell) => write!(f, " at {}", Place(cell)),
        _ => Ok(()),
    }
}

fn raised<W: fmt::Write>(f: &mut Formatter<W>, raised: Raised) -> fmt::Result {
    let (begun, _) = raised.counts;
    let (begun, walks) = (Thousands(begun), Walks(raised.counts));
    match raised.report {
        Report::Settled => write!(f, "raised the majorant, settled after {begun} walks"),
        Report::Moving => write!(f, "raised the majorant, still moving after {walks}"),
        Report::NoneAt(cell) => {
            let place = Place(cell);
            write!(f, "raised no majorant: none at {place} on walk {begun}")
        }
    }
}

fn refusal_of(answer: Answer) -> Option<Refusal> {
    match answer {
        Answer::Relaxed(Err(refusal))
        | Answer::Raised(Err(refusal))
        | Answer::Certified(Err(refusal))
        | Answer::Tightened(Err(refusal))
        | Answer::Pinned(Err(refusal))
        | Answer::Released(Err(refusal))
        | Answer::Bracket(Err(refusal)) => Some(refusal),
        _ => None,
    }
}

// What a call did and answered.
#[derive(Clone, Copy)]
pub(crate) struct Told<'a>(pub(crate) &'a Event);

impl Display for Told<'_> {
    fn fmt<W: fmt::Write>(&self, f: &mut Formatter<W>) -> fmt::Result {
        let call = &self.0.call;
        let answer = self.0.answer;
        if let Some(refusal) = refusal_of(answer) {
            return refused(f, call, refusal);
        }
        match (call, answer) {
            (_, Answer::Relaxed(Ok(counts))) => write!(f, "relaxed in {}", Walks(counts)),
            (_, Answer::Tightened(Ok(counts))) => write!(f, "tightened in {}", Walks(counts)),
            (_, Answer::Raised(Ok(report))) => raised(f, report),
            (_, Answer::Certified(Ok(certificate))) => {
                let (rest, margin) = (certificate.rest, certificate.margin);
                write!(f, "certified with rest {rest} over margin {margin}")
            }
            (Call::Pin { cell, temperature }, _) => {
                let (place, held) = (Place(*cell), Degrees(*temperature));
                write!(f, "pinned {place} at {held} degrees")
            }
            (Call::Release { cell }, _) => write!(f, "released {}", Place(*cell)),
            (Call::Bracket { cell }, Answer::Bracket(Ok(bracket))) => {
                let (place, lo, hi) = (Place(*cell), Degrees(bracket.lo), Degrees(bracket.hi));
                write!(f, "{place}: {lo} to {hi} degrees")
            }
            (_, Answer::OpenCount(cells)) => write!(f, "{cells} open"),
            (_, Answer::Finished(true)) => f.write_str("finished: yes"),
            (_, Answer::Finished(false)) => f.write_str("finished: no"),
            _ => write!(f, "{}", Asked(call)),
        }
    }
}
