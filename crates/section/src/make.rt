ghost use Rattle.std.specs.Prelude.{◌≡◌, ◌*◌, ◌≤◌, pos};
ghost use Rattle.refusal.specs.Refusals.{Checked};
ghost use Rattle.section.specs.Limits.{KeepsLimits, shape_check, free_check, held_check, tolerance_check, bracket_check};

use crate::limits::{held_at, within};
use crate::types::{Bracket, FreeRecord, HeldRecord, Shape, Tolerance};
use refusal::types::Refusal;

impl Shape {
    pub fn new(wide: i64, high: i64) -> Result<Shape, Refusal>
        ensures { Checked result (shape_check wide high) (λ s. (pos s.wide ≡ wide) × (pos s.high ≡ high)) }
    {
        within(1, wide, 1, 64)?;
        within(2, high, 1, 64)?;
        Ok(Shape {
            wide: wide as usize,
            high: high as usize,
        })
    }

    pub fn cells(&self) -> usize
        ensures { result ≡ self.now.wide * self.now.high }
    {
        self.wide * self.high
    }
}

impl HeldRecord {
    pub fn new(temperature: i64) -> Result<HeldRecord, Refusal>
        ensures { Checked result (held_check temperature) (λ h. h.temperature ≡ temperature) }
    {
        held_at(1, temperature)
    }
}

impl Tolerance {
    pub fn new(width: i64) -> Result<Tolerance, Refusal>
        ensures { Checked result (tolerance_check width) (λ t. t.width ≡ width) }
    {
        within(1, width, 0, 1_000_000_000)?;
        Ok(Tolerance { width })
    }
}

impl Bracket {
    pub fn new(lo: i64, hi: i64) -> Result<Bracket, Refusal>
        ensures { Checked result (bracket_check lo hi) (λ b. (b.lo ≡ lo) × (b.hi ≡ hi)) }
    {
        within(1, lo, -2_000_000_000, 2_000_000_000)?;
        within(2, hi, -2_000_000_000, 2_000_000_000)?;
        if lo > hi {
            return Err(Refusal::OutsideLimits(2));
        }
        Ok(Bracket { lo, hi })
    }
}

fn weight(position: usize, number: i64) -> Result<u16, Refusal>
    ensures { KeepsLimits result position (pos 0) (pos 1000) number (λ c. (pos c ≡ number) × (c ≤ 1000)) }
{
    within(position, number, 0, 1000)?;
    Ok(number as u16)
}

impl FreeRecord {
    pub fn new(
        north: i64,
        west: i64,
        east: i64,
        south: i64,
        loss: i64,
        heat: i64,
    ) -> Result<FreeRecord, Refusal>
        ensures { Checked result (free_check north west east south loss heat) (λ c. (pos c.north ≡ north) × (pos c.west ≡ west) × (pos c.east ≡ east) × (pos c.south ≡ south) × (pos c.loss ≡ loss) × (c.heat ≡ heat)) }
    {
        let north = weight(1, north)?;
        let west = weight(2, west)?;
        let east = weight(3, east)?;
        let south = weight(4, south)?;
        let loss = weight(5, loss)?;
        within(6, heat, -1_000_000_000_000, 1_000_000_000_000)?;
        Ok(FreeRecord {
            north,
            west,
            east,
            south,
            loss,
            heat,
        })
    }
}
