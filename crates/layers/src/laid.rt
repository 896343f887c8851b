ghost use Rattle.std.specs.Prelude.{◌≡◌, ℕ};
ghost use Rattle.section.specs.Plan.{Cell, Plan, meant};
ghost use Rattle.layers.specs.Layers.{laid_plan};

use section::types::Record;

// A table of what is laid over the cells of a ground: what it lays over each, and the plan
// that it makes of the ground's.
pub trait Laid {
    ghost laying: { Self → ℕ → Cell → Cell };

    ghost over_plan: { Self → Plan → Plan };

    // The record at an index, given what the ground below has there.
    fn lay_over(&self, index: usize, below: Record) -> Record
        ensures { meant result ≡ laying self.now index (meant below) };

    // The plan is the one below with that laid over each of its cells.
    ghost by_cells: { (table : Self) (p : Plan) → over_plan table p ≡ laid_plan (laying table) p };
}
