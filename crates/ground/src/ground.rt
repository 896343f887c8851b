ghost use Rattle.std.specs.Prelude.{◌≡◌, count_by};
ghost use Rattle.std.specs.List.{range_with_len};
ghost use Rattle.section.specs.Plan.{Plan, meant, at, free_count, is_free_at};

use section::types::{Record, Shape};

// What describes a section: it means a shape and a list of exactly as many records as the
// shape has cells, and neither question alters it.
pub trait Ground {
    ghost plan: { Self → Plan };

    fn shape(&self) -> Shape
        ensures wide { result.wide ≡ (plan self.now).wide }
        ensures high { result.high ≡ (plan self.now).high };

    // The record at an index; void past the last cell.
    fn record(&self, index: usize) -> Record
        ensures { meant result ≡ at (plan self.now) index };
}

pub fn free_cells<G: Ground>(ground: &G) -> usize
    ensures { result ≡ free_count (G.plan ground.now) }
{
    free_among(ground, ground.shape().cells())
}

// How many of the first cells are free.
fn free_among<G: Ground>(ground: &G, cells: usize) -> usize
    ensures { result ≡ count_by (is_free_at (G.plan ground.now)) (range_with_len 0 cells) }
{
    (0..cells)
        .filter(|index| matches!(ground.record(*index), Record::Free(_)))
        .count()
}
