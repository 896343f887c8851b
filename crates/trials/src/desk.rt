use crate::dice::Dice;
use replay::types::Call;
use section::rows::{Majorant, Temperature};
use std::alloc::{AllocError, Global};

// The grids as the last calls left them, from which the next calls are made.
#[derive(Drop)]
pub(crate) struct Desk {
    temperatures: Vec<Temperature>,
    majorant: Vec<Majorant>,
}

// Now and then a grid has the wrong length.
fn shorten<T: Drop>(dice: &mut Dice, grid: &mut Vec<T>) {
    if dice.one_in(25) {
        let _ = grid.pop();
    }
}

impl Desk {
    pub(crate) fn new(heap: Global, cells: usize) -> Result<Desk, AllocError> {
        Ok(Desk {
            temperatures: vec![in heap; Temperature { value: 0 }; cells]?,
            majorant: vec![in heap; Majorant { value: 0 }; cells]?,
        })
    }

    pub(crate) fn relax(&self, dice: &mut Dice) -> Result<Call, AllocError> {
        let mut temperatures = self.temperatures.clone()?;
        shorten(dice, &mut temperatures);
        Ok(Call::Relax {
            temperatures,
            factor: dice.mostly(60, 170, 200),
            walks: dice.mostly(1, 200, 0),
        })
    }

    pub(crate) fn raise(&self, dice: &mut Dice) -> Result<Call, AllocError> {
        let mut majorant = self.majorant.clone()?;
        shorten(dice, &mut majorant);
        Ok(Call::Raise {
            majorant,
            margin: dice.mostly(1, 50, 10_001),
            walks: dice.mostly(50, 200, 0),
        })
    }

    // Temperatures are certified as they were relaxed or somewhat off, for narrow and wide brackets.
    fn certify(&self, dice: &mut Dice) -> Result<Call, AllocError> {
        let mut temperatures = self.temperatures.clone()?;
        let mut majorant = self.majorant.clone()?;
        let off = dice.width();
        for entry in temperatures.iter_mut() {
            entry.value = entry.value.wrapping_add(dice.around(off));
        }
        shorten(dice, &mut temperatures);
        shorten(dice, &mut majorant);
        Ok(Call::Certify {
            temperatures,
            majorant,
        })
    }

    // A call at random, with a cell for it if it takes one.
    pub(crate) fn call(&self, dice: &mut Dice, cell: usize) -> Result<Call, AllocError> {
        Ok(match dice.below(20) {
            0..=2 => self.relax(dice)?,
            3..=5 => self.raise(dice)?,
            6..=9 => self.certify(dice)?,
            10..=12 => Call::Tighten {
                walks: dice.mostly(1, 20, 0),
            },
            13 => Call::Pin {
                cell,
                temperature: dice.mostly(-40_000_000, 40_000_000, 1_000_000_001),
            },
            14 => Call::Release { cell },
            15..=17 => Call::Bracket { cell },
            18 => Call::OpenCount,
            _ => Call::Finished,
        })
    }

    // Takes the grids that relaxing and raising altered.
    pub(crate) fn keep(&mut self, call: Call) {
        match call {
            Call::Relax { temperatures, .. } => {
                if temperatures.len() == self.temperatures.len() {
                    self.temperatures = temperatures;
                }
            }
            Call::Raise { majorant, .. } => {
                if majorant.len() == self.majorant.len() {
                    self.majorant = majorant;
                }
            }
            _ => {}
        }
    }
}
