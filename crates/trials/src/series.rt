use crate::dice::Dice;
use crate::fault::Result;
use crate::floor::Floor;
use crate::tally::Tally;
use ground::ground::Ground;
use std::alloc::Global;
use std::mem;

const STUDIES: usize = 200;

// Trials on one kind of ground after another: what they draw on, and what the present kind gave.
#[derive(Drop)]
pub(crate) struct Series {
    pub(crate) heap: Global,
    pub(crate) dice: Dice,
    pub(crate) tally: Tally,
}

impl Series {
    pub(crate) fn new(heap: Global) -> Series {
        Series {
            heap,
            dice: Dice::new(1),
            tally: Tally::default(),
        }
    }

    // Studies grounds of one kind, each made with an account of its floor.
    pub(crate) fn run<G, F>(&mut self, make: F) -> Result<Tally>
    where
        G: Ground + Drop,
        F: Fn(Global, &mut Dice) -> Result<(G, Floor)>,
        requires { F.IsAlwaysCallable make }
    {
        for _ in 0..STUDIES {
            let (ground, floor) = make(self.heap, &mut self.dice)?;
            self.pile(ground, floor)?;
        }
        Ok(mem::take(&mut self.tally))
    }
}
