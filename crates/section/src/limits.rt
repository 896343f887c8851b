ghost use Rattle.std.specs.Prelude.{◌≡◌, pos, negsuc, ◌≤ℤ◌};
ghost use Rattle.section.specs.Limits.{KeepsLimits};

use crate::types::HeldRecord;
use refusal::types::Refusal;

// The number at a position of a call, refused outside its limits.
pub fn within(position: usize, number: i64, least: i64, most: i64) -> Result<(), Refusal>
    ensures { KeepsLimits result position least most number (λ _. (least ≤ℤ number) × (number ≤ℤ most)) }
{
    if number < least || number > most {
        return Err(Refusal::OutsideLimits(position));
    }
    Ok(())
}

// The record of a temperature at a position of a call.
pub fn held_at(position: usize, temperature: i64) -> Result<HeldRecord, Refusal>
    ensures { KeepsLimits result position (negsuc 999999999) (pos 1000000000) temperature (λ h. h.temperature ≡ temperature) }
{
    within(position, temperature, -1_000_000_000, 1_000_000_000)?;
    Ok(HeldRecord { temperature })
}
