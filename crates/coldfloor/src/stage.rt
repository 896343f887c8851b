use crate::fault::Untimely;
use crate::floor::Floor;
use crate::work::Work;
use ground::listed::Listed;
use layers::layer::LossLayer;

// How far a script has come. A table is open as long as a listed floor is the ground.
#[derive(Drop)]
pub(crate) enum Stage {
    Bare,
    Ground(LossLayer<Floor>),
    Study(Work),
}

impl Stage {
    pub(crate) fn ground(&mut self) -> Result<&mut LossLayer<Floor>, Untimely> {
        match self {
            Stage::Ground(layer) => Ok(layer),
            _ => Err(Untimely::NoGround),
        }
    }

    pub(crate) fn table(&mut self) -> Result<&mut Listed, Untimely> {
        let Stage::Ground(layer) = self else {
            return Err(Untimely::NoTable);
        };
        match &mut layer.below {
            Floor::Listed(table) => Ok(table),
            _ => Err(Untimely::NoTable),
        }
    }

    pub(crate) fn work(&mut self) -> Result<&mut Work, Untimely> {
        match self {
            Stage::Study(work) => Ok(work),
            _ => Err(Untimely::NoStudy),
        }
    }
}
