ghost use Rattle.std.specs.Prelude.{◌≡◌};
ghost use Rattle.study.specs.Calls.{basis_of};

use certificate::basis::Basis;
use ground::ground::Ground;
use layers::layer::PinLayer;
use section::types::Tolerance;
use stencil::laid::LaidOut;

// Whether brackets are proved.
#[derive(Clone, Copy)]
pub enum State {
    Unproved,
    Proved,
}

impl State {
    // What the brackets in the grid are worth to a certificate.
    pub(crate) fn basis(self) -> Basis
        ensures { result ≡ basis_of self }
    {
        match self {
            State::Unproved => Basis::Alone,
            State::Proved => Basis::Joined,
        }
    }
}

// What an accepted certificate answers: the largest absolute residual, the smallest margin of a free
// cell, and the open count.
#[derive(Clone, Copy)]
pub struct Certificate {
    pub rest: u64,
    pub margin: u64,
    pub open: usize,
}

// The ground below its pins is the study's own: nothing here leads to it.
#[derive(Drop)]
pub struct Study<G: Ground> {
    pub(crate) layer: LaidOut<PinLayer<G>>,
    pub(crate) tolerance: Tolerance,
    pub(crate) state: State,
    pub(crate) open: usize,
}
