// Replays random calls on every kind of ground, and checks what came of them against exact
// temperatures that are worked out here, without the library.
#![tactic(auto)]

mod desk;
mod dice;
mod exact;
mod fault;
mod floor;
mod make;
mod piles;
mod series;
mod tally;
mod trial;

use fault::Result;
use make::{listed, ring, slab};
use series::Series;

fn main(rt: HostRuntime) -> Result<()> {
    let mut series = Series::new(rt.alloc());
    series.run(slab)?.print(&rt, "slab")?;
    series.run(ring)?.print(&rt, "ring")?;
    series.run(listed)?.print(&rt, "listed")?;
    Ok(())
}
