use ground::ground::Ground;
use refusal::types::Refusal;
use section::types::Record;
use std::fmt;

// A call that was refused, without the cause.
#[derive(Clone, Copy)]
pub(crate) struct Refused(pub(crate) Refusal);

impl fmt::Display for Refused {
    fn fmt<W: fmt::Write>(&self, f: &mut fmt::Formatter<W>) -> fmt::Result {
        let number = self.0.number();
        let place = self.0.place();
        let level = self.0.level();
        write!(f, "refused {number} at {place}, level {level}")
    }
}

// Whether a call was accepted.
#[derive(Drop)]
pub(crate) struct Outcome<T>(pub(crate) Result<T, Refusal>);

impl<T> fmt::Display for Outcome<T> {
    fn fmt<W: fmt::Write>(&self, f: &mut fmt::Formatter<W>) -> fmt::Result {
        match &self.0 {
            Ok(_) => f.write_str("accepted"),
            Err(refusal) => Refused(*refusal).fmt(f),
        }
    }
}

// How a change to a cell of a ground came out, and what the cell is then.
#[derive(Drop)]
pub(crate) struct Changed {
    outcome: Outcome<()>,
    record: Record,
}

impl Changed {
    pub(crate) fn new<G: Ground>(answer: Result<(), Refusal>, ground: &G, cell: usize) -> Changed {
        Changed {
            outcome: Outcome(answer),
            record: ground.record(cell),
        }
    }
}

impl fmt::Display for Changed {
    fn fmt<W: fmt::Write>(&self, f: &mut fmt::Formatter<W>) -> fmt::Result {
        let outcome = &self.outcome;
        match self.record {
            Record::Free(free) => {
                let loss = free.loss;
                write!(f, "{outcome}; free with loss {loss}")
            }
            Record::Held(held) => {
                let temperature = held.temperature;
                write!(f, "{outcome}; held at {temperature}")
            }
            Record::Void => write!(f, "{outcome}; void"),
        }
    }
}
