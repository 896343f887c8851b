ghost use Rattle.std.specs.Prelude.{◌≡◌, ◌+◌, ◌-◌, ◌%◌, ◌<◌, ◌≤◌, if◌then◌else◌, Some, None, nat_le, nat_lt};
ghost use Rattle.stencil.specs.Laying.{Near, NearIf};
ghost use Rattle.stencil.specs.Stencils.{SideOf, toward, OnPlan};

use crate::types::Arm;
pub use crate::types::Side;
use ground::ground::Ground;
use number::weighed;
use section::types::{Record, Shape};

// The column of the next cell: counted on, since a division for each cell takes its time.
pub(crate) fn next_column(shape: Shape, index: usize, column: usize) -> usize
    requires { column ≡ index % shape.wide }
    ensures { result ≡ (index + 1) % shape.wide }
{
    if column + 1 < shape.wide {
        column + 1
    } else {
        0
    }
}

// The neighbours of a cell, each if it lies on the plan.
pub(crate) fn north(shape: Shape, index: usize) -> Option<usize>
    ensures { result ≡ (if nat_le shape.wide index then Some (index - shape.wide) else None) }
{
    if index >= shape.wide {
        Some(index - shape.wide)
    } else {
        None
    }
}

pub(crate) fn west(shape: Shape, index: usize, column: usize) -> Option<usize>
    requires { column ≡ index % shape.wide }
    ensures { result ≡ (if nat_lt 0 (index % shape.wide) then Some (index - 1) else None) }
{
    if column > 0 { Some(index - 1) } else { None }
}

pub(crate) fn east(shape: Shape, index: usize, column: usize) -> Option<usize>
    requires near { index < 4096 }
    requires column { column ≡ index % shape.wide }
    ensures { result ≡ (if nat_lt (index % shape.wide + 1) shape.wide then Some (index + 1) else None) }
{
    if column + 1 < shape.wide {
        Some(index + 1)
    } else {
        None
    }
}

// One below the last row has no record.
pub(crate) fn south(shape: Shape, index: usize) -> Option<usize>
    requires { index < 4096 }
    ensures { result ≡ Some (index + shape.wide) }
{
    Some(index + shape.wide)
}

// The side of the cell `index` toward a neighbour, by a link of the given weight.
pub(crate) fn look_toward<G: Ground>(
    ground: &G,
    index: usize,
    to: Option<usize>,
    weight: u16,
) -> Side
    requires on { OnPlan (G.plan ground.now) index }
    requires light { weight ≤ 1000 }
    ensures side { SideOf (G.plan ground.now) index (toward (G.plan ground.now) to weight) result }
    ensures near { NearIf (G.plan ground.now) index to → Near (G.plan ground.now) index result.arm.cell }
{
    let back = Arm {
        weight: 0,
        cell: index as u16,
    };
    let Some(cell) = to else {
        return Side {
            counts: 0,
            arm: back,
            given: 0,
        };
    };
    match ground.record(cell) {
        Record::Free(_) => Side {
            counts: weight,
            arm: Arm {
                weight,
                cell: cell as u16,
            },
            given: 0,
        },
        Record::Held(held) => Side {
            counts: weight,
            arm: back,
            given: weighed(weight, held.temperature),
        },
        Record::Void => Side {
            counts: 0,
            arm: back,
            given: 0,
        },
    }
}
