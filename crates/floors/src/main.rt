// Tries the library on floors small enough to work by hand, and prints a line for each case. What
// it must print was worked out from the rules, so a line that differs shows a fault.
#![tactic(auto)]

mod fault;
mod limits;
mod plans;
mod runs;
mod tables;
mod told;

use fault::Result;
use limits::{floors, records, shapes};
use plans::links;
use runs::{climbing, majorants};
use tables::{losses, pins};
use worked::worked_floors;

fn main(rt: HostRuntime) -> Result<()> {
    links(&rt)?;
    shapes(&rt)?;
    records(&rt)?;
    floors(&rt)?;
    pins(&rt)?;
    losses(&rt)?;
    climbing(&rt)?;
    majorants(&rt)?;
    let count = worked_floors();
    println!(&rt; "{count} floors worked by hand are proved to come out as the table says")?;
    Ok(())
}
