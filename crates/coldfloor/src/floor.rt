use ground::listed::Listed;
use ground::ring::Ring;
use ground::slab::Slab;
use std::fmt;

// A ground of any of the three kinds.
#[derive(Drop)]
pub(crate) enum Floor {
    Slab(Slab),
    Ring(Ring),
    Listed(Listed),
}

// The word for its kind.
impl fmt::Display for Floor {
    fn fmt<W: fmt::Write>(&self, f: &mut fmt::Formatter<W>) -> fmt::Result {
        f.write_str(match self {
            Floor::Slab(_) => "slab",
            Floor::Ring(_) => "ring",
            Floor::Listed(_) => "listed",
        })
    }
}
