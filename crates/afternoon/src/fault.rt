use refusal::types::Refusal;
use std::alloc::{AllocError, AllocFailed};
use std::fmt::{Debug, Formatter};
use std::{fmt, io};

// Why the program ends early, in std's words.
#[derive(Drop)]
pub(crate) struct Fault(io::Error);

pub(crate) type Result<T, E = Fault> = std::result::Result<T, E>;

impl Debug for Fault {
    fn fmt<W: fmt::Write>(&self, f: &mut Formatter<W>) -> fmt::Result {
        self.0.fmt(f)
    }
}

impl From<io::Error> for Fault {
    fn from(e: io::Error) -> Fault {
        Fault(e)
    }
}

impl From<AllocError> for Fault {
    fn from(e: AllocError) -> Fault {
        Fault(e.into())
    }
}

impl<T: Drop> From<AllocFailed<T>> for Fault {
    fn from(e: AllocFailed<T>) -> Fault {
        Fault(e.into())
    }
}

// A refusal that nothing here expects.
impl From<Refusal> for Fault {
    fn from(_e: Refusal) -> Fault {
        Fault(io::ErrorKind::InvalidInput.into())
    }
}
