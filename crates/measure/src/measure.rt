ghost use Rattle.std.specs.Prelude.{◌≡◌, ◌≤◌, nat_lt, unsigned_abs};
ghost use Rattle.section.specs.Plan.{Plan};
ghost use Rattle.stencil.specs.Stencils.{Stands};
ghost use Rattle.walk.specs.Sites.{WalkableOver};
ghost use Rattle.steps.specs.Steps.{FairTemperature, FairMajorant};
ghost use Rattle.measure.specs.Measures.{rest as rest_of, margin as margin_of, spread_of, around};

use crate::grids::{least_margin, rest};
use section::rows::{BracketRow, Majorant, Temperature};
use stencil::types::Stencil;
use steps::height::Height;

// The rest of proposed temperatures, and the margin of a majorant with no negative one.
#[derive(Clone, Copy)]
pub struct Measure {
    pub rest: u64,
    pub margin: u64,
    ghost rest_most: { rest ≤ 18000000000000 },
    ghost margin_most: { margin ≤ 2500000000 },
}

// Measures whole grids; with no free cell both numbers are 0. For the crates above.
pub fn measured(
    rows: &[Option<Stencil>],
    temperatures: &[Temperature],
    majorant: &[Majorant],
) -> Measure
    requires mild { WalkableOver FairTemperature rows.now temperatures.now }
    requires fair { WalkableOver FairMajorant rows.now majorant.now }
    ensures rest { (p : Plan) → Stands p rows.now → result.rest ≡ rest_of p temperatures.now }
    ensures margin { (p : Plan) → Stands p rows.now → result.margin ≡ unsigned_abs (margin_of p majorant.now) }
{
    let margin = match least_margin(rows, majorant) {
        None => 0,
        Some(margin) => margin.unsigned_abs(),
    };
    Measure {
        rest: rest(rows, temperatures),
        margin,
    }
}

impl Measure {
    // How far the exact temperature can lie from the proposed one. For the crates above.
    pub fn spread(self, height: Height) -> u64
        requires { 1 ≤ self.margin }
        ensures { result ≡ spread_of self.rest self.margin height.value }
    {
        (self.rest * height.value + (self.margin - 1)) / self.margin
    }

    // Whether the spread is above its limit; a product is cheaper than a quotient. For the crates above.
    pub fn too_wide(self, height: Height) -> bool
        requires { 1 ≤ self.margin }
        ensures { result ≡ nat_lt 1000000000 (spread_of self.rest self.margin height.value) }
    {
        self.rest * height.value > 1_000_000_000 * self.margin
    }

    // The certified bracket of a cell. For the crates above.
    pub fn certified(self, temperature: i64, height: Height) -> BracketRow
        requires some { 1 ≤ self.margin }
        requires mild { unsigned_abs temperature ≤ 1000000000 }
        requires near { spread_of self.rest self.margin height.value ≤ 1000000000 }
        ensures { result ≡ around temperature (spread_of self.rest self.margin height.value) }
    {
        let spread = self.spread(height) as i64;
        BracketRow {
            lo: temperature - spread,
            hi: temperature + spread,
        }
    }
}
