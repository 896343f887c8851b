ghost use Rattle.std.specs.Prelude.{◌≡◌};
ghost use Rattle.refusal.specs.Refusals.{fault_of, cause_of, table_cause};
ghost use Rattle.refusal.specs.declared.types.Refusal.TheVariants.{Table, Walk};

use crate::types::{Level, Refusal, TableFault, WalkFault};

impl From<TableFault> for Refusal {
    ghost from_gives = { λ e r. r ≡ Table e };

    fn from(e: TableFault) -> Refusal {
        Refusal::Table(e)
    }
}

impl From<WalkFault> for Refusal {
    ghost from_gives = { λ e r. r ≡ Walk e };

    fn from(e: WalkFault) -> Refusal {
        Refusal::Walk(e)
    }
}

fn table_cause(fault: TableFault) -> &'static str
    ensures { result.now ≡ table_cause fault }
{
    match fault {
        TableFault::PinnedAlready(_) => "pinned already",
        TableFault::NoPin(_) => "no pin to release",
        TableFault::Full(_) => "table full",
    }
}

impl Refusal {
    pub fn number(self) -> usize
        ensures { result ≡ (fault_of self).number }
    {
        match self {
            Refusal::NoSuchCell(_) => 1,
            Refusal::NotFree(_) => 2,
            Refusal::Table(TableFault::PinnedAlready(_)) => 3,
            Refusal::Table(TableFault::NoPin(_)) => 4,
            Refusal::Table(TableFault::Full(_)) => 5,
            Refusal::OutsideLimits(_) => 6,
            Refusal::GridLength(_) => 7,
            Refusal::NotProved => 8,
            Refusal::Crossed(_) | Refusal::Walk(WalkFault::Crossed(_)) => 9,
            Refusal::Temperature(_) => 10,
            Refusal::Majorant(_) => 11,
            Refusal::Margin(_) => 12,
            Refusal::Spread(_) => 13,
        }
    }

    // A cell; the position of a number in its call, from 1; or a grid's length.
    pub fn place(self) -> usize
        ensures { result ≡ (fault_of self).place }
    {
        match self {
            Refusal::Table(TableFault::PinnedAlready(cell)) => cell,
            Refusal::Table(TableFault::NoPin(cell)) => cell,
            Refusal::Table(TableFault::Full(cell)) => cell,
            Refusal::Walk(WalkFault::Crossed(cell)) => cell,
            Refusal::OutsideLimits(position) => position,
            Refusal::GridLength(length) => length,
            Refusal::NotProved => 0,
            Refusal::NoSuchCell(cell) => cell,
            Refusal::NotFree(cell) => cell,
            Refusal::Crossed(cell) => cell,
            Refusal::Temperature(cell) => cell,
            Refusal::Majorant(cell) => cell,
            Refusal::Margin(cell) => cell,
            Refusal::Spread(cell) => cell,
        }
    }

    pub fn level(self) -> Level
        ensures { result ≡ (fault_of self).level }
    {
        match self {
            Refusal::Table(_) => Level::Table,
            Refusal::Walk(_) => Level::Walk,
            _ => Level::Call,
        }
    }

    // The cause in words for people to read.
    pub fn cause(self) -> &'static str
        ensures { result.now ≡ cause_of self }
    {
        match self {
            Refusal::NoSuchCell(_) => "no such cell",
            Refusal::NotFree(_) => "not a free cell",
            Refusal::Table(fault) => table_cause(fault),
            Refusal::OutsideLimits(_) => "number outside its limits",
            Refusal::GridLength(_) => "wrong grid length",
            Refusal::NotProved => "not proved",
            Refusal::Crossed(_) => "crossed",
            Refusal::Walk(WalkFault::Crossed(_)) => "crossed",
            Refusal::Temperature(_) => "temperature outside its limits",
            Refusal::Majorant(_) => "majorant outside its limits",
            Refusal::Margin(_) => "margin below 1",
            Refusal::Spread(_) => "spread too wide",
        }
    }
}
