ghost use Rattle.std.specs.Prelude.{◌≡◌, ◌≤◌, unsigned_abs};
ghost use Rattle.steps.specs.Steps.{FairMajorant};

use section::rows::Majorant;

// An entry of a majorant that is within its limits.
#[derive(Clone, Copy, PartialEq, Eq)]
pub struct Height {
    pub value: u64,
    ghost most: { value ≤ 500000 },
}

impl Height {
    // For the crates above.
    pub fn of(entry: Majorant) -> Height
        requires { FairMajorant entry }
        ensures { result.value ≡ unsigned_abs entry.value }
    {
        Height {
            value: entry.value as u64,
        }
    }
}
