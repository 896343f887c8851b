ghost use Rattle.std.specs.Prelude.{◌≡◌, ◌*◌, ◌≤◌, pos, ◌-ℤ◌, ◌*ℤ◌, unsigned_abs};
ghost use Rattle.walk.specs.Sites.{FairSite};
ghost use Rattle.steps.specs.AtSites.{site_sum, site_load};
ghost use Rattle.steps.specs.Steps.{FairTemperature, FairMajorant};

use section::rows::{Majorant, Temperature};
use steps::height::Height;
use steps::sums::{load, pull};
use walk::types::Site;

// By how much a cell's equation fails, either way.
pub(crate) fn residual(site: &Site<Temperature>) -> u64
    requires { FairSite FairTemperature site.now }
    ensures value { result ≡ unsigned_abs (site_sum site.now -ℤ pos site.now.stencil.diagonal *ℤ site.now.old.value) }
    ensures most { result ≤ 18000000000000 }
{
    let sum = pull(&site.stencil, site.around.map(|entry| entry.value));
    (sum - i64::from(site.stencil.diagonal) * site.old.value).unsigned_abs()
}

// d × w less the sum over the free neighbours.
pub(crate) fn cell_margin(site: &Site<Majorant>) -> i64
    requires { FairSite FairMajorant site.now }
    ensures value { result ≡ pos (site.now.stencil.diagonal * unsigned_abs site.now.old.value) -ℤ pos (site_load site.now) }
    ensures most { unsigned_abs result ≤ 2500000000 }
{
    let sum = load(&site.stencil, site.around.map(Height::of));
    let own = u64::from(site.stencil.diagonal) * Height::of(site.old).value;
    own as i64 - sum as i64
}
