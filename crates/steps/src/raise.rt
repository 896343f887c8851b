ghost use Rattle.std.specs.Prelude.{◌≡◌, ℕ, ◌+◌, ◌≤◌, List, unsigned_abs};
ghost use Rattle.number.specs.Rounding.{ceil};
ghost use Rattle.section.specs.Plan.{Plan};
ghost use Rattle.walk.specs.Sites.{FairSite, Sees, Keeps};
ghost use Rattle.steps.specs.Steps.{raise_turn, raising, FairMajorant};
ghost use Rattle.steps.specs.AtSites.{site_load};

use crate::height::Height;
use crate::rules::Raise;
use crate::sums::load;
use section::rows::Majorant;
use walk::rule::Rule;
use walk::types::{Site, Turn};

// The least entry that gives a cell the margin, over the entries around it.
fn raised(margin: u64, diagonal: u16, sum: u64) -> u64
    requires some { 1 ≤ diagonal }
    requires small { margin + sum ≤ 3000000000 }
    ensures { result ≡ ceil (margin + sum) diagonal }
{
    let d = u64::from(diagonal);
    (margin + sum + (d - 1)) / d
}

// What raising does at a site.
fn raise_at(margin: Raise, site: &Site<Majorant>) -> Turn<Majorant>
    requires { FairSite FairMajorant site.now }
    ensures value { result ≡ raise_turn (unsigned_abs margin.margin) site.now.stencil.diagonal (site_load site.now) (unsigned_abs site.now.old.value) }
    ensures kept { Keeps FairMajorant result }
{
    let diagonal = site.stencil.diagonal;
    if diagonal == 0 {
        return Turn::Stop;
    }
    let sum = load(&site.stencil, site.around.map(Height::of));
    let new = raised(margin.margin as u64, diagonal, sum);
    if new > 500_000 {
        return Turn::Stop;
    }
    if new == Height::of(site.old).value {
        Turn::Stay
    } else {
        Turn::Put(Majorant { value: new as i64 })
    }
}

impl Rule<Majorant> for Raise {
    ghost step = { λ s. raising (unsigned_abs s.margin) };

    ghost fair = { λ _. FairMajorant };

    fn turn(&self, site: Site<Majorant>) -> Turn<Majorant>
        requires { FairSite FairMajorant site }
        ensures value { (p : Plan) (xs : List Majorant) (i : ℕ) → Sees p xs i site → result ≡ raising (unsigned_abs self.now.margin) p xs i }
        ensures kept { Keeps FairMajorant result }
    {
        raise_at(*self, &site)
    }
}
