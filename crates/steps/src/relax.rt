ghost use Rattle.std.specs.Prelude.{◌≡◌, ℕ, ◌*◌, List, pos, negsuc, ◌+ℤ◌, ◌-ℤ◌, ◌*ℤ◌, ◌≤ℤ◌};
ghost use Rattle.number.specs.Rounding.{nearest};
ghost use Rattle.section.specs.Plan.{Plan};
ghost use Rattle.walk.specs.Sites.{FairSite, Sees, Keeps};
ghost use Rattle.steps.specs.Steps.{relaxed_to, relax_turn, relaxing, FairTemperature};
ghost use Rattle.steps.specs.AtSites.{site_sum};

use crate::rules::{Balance, Relax};
use crate::sums::pull;
use number::nearest_div;
use section::rows::Temperature;
use walk::rule::Rule;
use walk::types::{Site, Turn};

impl Relax {
    // (factor × sum + (100 - factor) × diagonal × old) over 100 × diagonal, to the nearest.
    fn blend(self, cell: Balance) -> i64
        ensures { result ≡ nearest (self.factor *ℤ cell.sum +ℤ (pos 100 -ℤ self.factor) *ℤ (pos cell.diagonal *ℤ cell.old)) (100 * cell.diagonal) }
    {
        let d = i64::from(cell.diagonal);
        let k = self.factor;
        nearest_div(k * cell.sum + (100 - k) * (d * cell.old), 100 * d)
    }

    fn relaxed(self, cell: Balance) -> i64
        ensures value { result ≡ relaxed_to self.factor cell.diagonal cell.sum cell.old }
        ensures least { negsuc 999999999 ≤ℤ result }
        ensures most { result ≤ℤ pos 1000000000 }
    {
        self.blend(cell).clamp(-1_000_000_000, 1_000_000_000)
    }
}

// What relaxing does at a site.
fn relax_at(factor: Relax, site: &Site<Temperature>) -> Turn<Temperature>
    requires { FairSite FairTemperature site.now }
    ensures value { result ≡ relax_turn factor.factor site.now.stencil.diagonal (site_sum site.now) site.now.old.value }
    ensures kept { Keeps FairTemperature result }
{
    let diagonal = site.stencil.diagonal;
    let old = site.old.value;
    if diagonal == 0 {
        return Turn::Stay;
    }
    let sum = pull(&site.stencil, site.around.map(|entry| entry.value));
    let value = factor.relaxed(Balance { diagonal, sum, old });
    if value == old {
        Turn::Stay
    } else {
        Turn::Put(Temperature { value })
    }
}

impl Rule<Temperature> for Relax {
    ghost step = { λ s. relaxing s.factor };

    ghost fair = { λ _. FairTemperature };

    fn turn(&self, site: Site<Temperature>) -> Turn<Temperature>
        requires { FairSite FairTemperature site }
        ensures value { (p : Plan) (xs : List Temperature) (i : ℕ) → Sees p xs i site → result ≡ relaxing self.now.factor p xs i }
        ensures kept { Keeps FairTemperature result }
    {
        relax_at(*self, &site)
    }
}
