ghost use Rattle.std.specs.Prelude.{◌≡◌, List};
ghost use Rattle.walk.specs.Walks.{ran_as};
ghost use Rattle.steps.specs.Steps.{counts_of, raised_of};
ghost use Rattle.section.specs.declared.rows.Temperature.{Temperature};
ghost use Rattle.section.specs.declared.rows.Majorant.{Majorant};

use crate::report::{Raised, Report};
use walk::types::Stopped;

// The two numbers of a run, also of one that a step stopped. For the crates above.
pub fn counts_of(ran: Result<(usize, usize), Stopped>) -> (usize, usize)
    ensures { (xs : List Temperature) → result ≡ counts_of (ran_as xs ran) }
{
    match ran {
        Ok(counts) => counts,
        Err(stopped) => stopped.counts,
    }
}

// How a run of raising ended. For the crates above.
pub fn raised_by(ran: Result<(usize, usize), Stopped>) -> Raised
    ensures { (xs : List Majorant) → result ≡ raised_of (ran_as xs ran) }
{
    match ran {
        Ok((walks, 0)) => Raised {
            report: Report::Settled,
            counts: (walks, 0),
        },
        Ok(counts) => Raised {
            report: Report::Moving,
            counts,
        },
        Err(stopped) => Raised {
            report: Report::NoneAt(stopped.cell),
            counts: stopped.counts,
        },
    }
}
