ghost use Rattle.std.specs.Prelude.{◌≡◌, ℕ, ◌≤◌, List, unsigned_abs};
ghost use Rattle.std.specs.Int.{int_max, int_min};
ghost use Rattle.number.specs.Rounding.{ceiling, floor};
ghost use Rattle.section.specs.Plan.{Plan};
ghost use Rattle.section.specs.Reading.{plain, row_bracket};
ghost use Rattle.section.specs.declared.rows.BracketRow.{BracketRow};
ghost use Rattle.walk.specs.Sites.{FairSite, Sees, Keeps};
ghost use Rattle.steps.specs.AtSites.{site_end};
ghost use Rattle.steps.specs.Steps.{AnyRow};
ghost use Rattle.steps.specs.Tightening.{narrow_to, tighten_turn, tightening};

use crate::rules::Tighten;
use crate::sums::pull;
use number::{ceil_div, floor_div};
use section::rows::BracketRow;
use section::types::Bracket;
use walk::rule::Rule;
use walk::types::{Site, Turn};

// The larger of a lower end and S over the lower ends, divided.
fn lower(old: i64, low: i64, diagonal: u16) -> i64
    requires some { 1 ≤ diagonal }
    requires small { unsigned_abs low ≤ 13000000000000 }
    ensures { result ≡ int_max old (floor low diagonal) }
{
    old.max(floor_div(low, i64::from(diagonal)))
}

// The smaller of an upper end and S over the upper ends, divided.
fn upper(old: i64, high: i64, diagonal: u16) -> i64
    requires some { 1 ≤ diagonal }
    requires small { unsigned_abs high ≤ 13000000000000 }
    ensures { result ≡ int_min old (ceiling high diagonal) }
{
    old.min(ceil_div(high, i64::from(diagonal)))
}

// Ends that cross stop the walk, and a bracket that stays leaves its row.
fn narrowed(new: BracketRow, old: Bracket) -> Turn<BracketRow>
    ensures { result ≡ narrow_to new (plain old) }
{
    if new.hi < new.lo {
        return Turn::Stop;
    }
    if new == BracketRow::from(old) {
        Turn::Stay
    } else {
        Turn::Put(new)
    }
}

// What tightening does at a site.
fn tighten_at(site: &Site<BracketRow>) -> Turn<BracketRow>
    ensures { result ≡ tighten_turn site.now.stencil.diagonal (site_end (λ b. b.lo) site.now) (site_end (λ b. b.hi) site.now) (row_bracket site.now.old) }
{
    let diagonal = site.stencil.diagonal;
    if diagonal == 0 {
        return Turn::Stay;
    }
    let around = site.around.map(Bracket::from);
    let low = pull(&site.stencil, around.map(|bracket| bracket.lo));
    let high = pull(&site.stencil, around.map(|bracket| bracket.hi));
    let old = Bracket::from(site.old);
    let lo = lower(old.lo, low, diagonal);
    let hi = upper(old.hi, high, diagonal);
    narrowed(BracketRow { lo, hi }, old)
}

impl Rule<BracketRow> for Tighten {
    ghost step = { λ _. tightening };

    ghost fair = { λ _. AnyRow };

    fn turn(&self, site: Site<BracketRow>) -> Turn<BracketRow>
        requires { FairSite AnyRow site }
        ensures value { (p : Plan) (xs : List BracketRow) (i : ℕ) → Sees p xs i site → result ≡ tightening p xs i }
        ensures kept { Keeps AnyRow result }
    {
        tighten_at(&site)
    }
}
