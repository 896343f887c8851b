// A planner's afternoon over one cold-store floor: sensors pinned, temperatures proved, a thermostat
// tried and taken away again, a broken sensor released. Every call goes through `replay`.
#![tactic(auto)]

mod desk;
mod fault;
mod floor;
mod told;

use desk::Desk;
use fault::Result;
use floor::cell_at;
use replay::types::Call;

// The measured temperatures below the heaters, each with its column.
const SENSORS: [(u8, i64); 8] = [
    (4, 3_100_000),
    (12, 2_400_000),
    (20, 2_000_000),
    (28, 1_800_000),
    (35, 1_900_000),
    (43, 2_200_000),
    (51, 2_600_000),
    (59, 3_300_000),
];

// The sensors' row, and the column of the one that turns out to be broken.
const SENSOR_ROW: u8 = 14;

const BROKEN: u8 = 43;

// Where a thermostat is thought of.
const THERMOSTAT_ROW: u8 = 9;

const THERMOSTAT_COLUMN: u8 = 32;

// Proves brackets, and looks where a planner does: at the first row below the foam, which must not
// freeze.
fn prove(desk: &mut Desk<impl Print>) -> Result<()> {
    desk.prove()?;
    let looks = [2, 16, 32, 48].map(|column| Call::Bracket {
        cell: cell_at(7, column),
    });
    desk.work(looks.into_iter().collect(desk.heap)?)?;
    desk.make(Call::Finished)?;
    Ok(())
}

fn begin(desk: &mut Desk<impl Print>) -> Result<()> {
    desk.say("The sensors:")?;
    let pins = SENSORS.map(|(column, temperature)| Call::Pin {
        cell: cell_at(SENSOR_ROW, column),
        temperature,
    });
    desk.work(pins.into_iter().collect(desk.heap)?)?;
    desk.say("The first proof:")?;
    desk.relax(165)?;
    desk.raise()?;
    prove(desk)
}

// With one more cell held the majorant still serves.
fn try_thermostat(desk: &mut Desk<impl Print>) -> Result<()> {
    desk.say("A thermostat is tried:")?;
    let cell = cell_at(THERMOSTAT_ROW, THERMOSTAT_COLUMN);
    desk.make(Call::Pin {
        cell,
        temperature: 5_200_000,
    })?;
    desk.relax(150)?;
    prove(desk)?;
    desk.say("It is taken away again:")?;
    let release = Call::Release { cell };
    desk.work(vec![in desk.heap; release, Call::Tighten { walks: 100 }]?)?;
    desk.relax(150)?;
    prove(desk)
}

// The majorant has no entry for a cell that was held when it was raised, so it is raised anew.
fn release_broken(desk: &mut Desk<impl Print>) -> Result<()> {
    desk.say("A broken sensor is released:")?;
    let release = Call::Release {
        cell: cell_at(SENSOR_ROW, BROKEN),
    };
    let certify = desk.certify()?;
    desk.work(vec![in desk.heap; release, certify]?)?;
    desk.relax(150)?;
    desk.raise()?;
    prove(desk)
}

fn main(rt: HostRuntime) -> Result<()> {
    let mut desk = Desk::new(&rt, rt.alloc())?;
    begin(&mut desk)?;
    try_thermostat(&mut desk)?;
    release_broken(&mut desk)
}
