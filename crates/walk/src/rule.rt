ghost use Rattle.std.specs.Prelude.{◌≡◌, ℕ, List};
ghost use Rattle.section.specs.Plan.{Plan};
ghost use Rattle.walk.specs.Sites.{FairSite, Sees, Keeps};
ghost use Rattle.walk.specs.declared.types.Turn.{Turn};

use crate::types::{Site, Turn};

// What a kind of walk does at a cell. `step` says it of the plan, the grid and the cell's index;
// `fair` are the entries at which it can be done.
pub trait Rule<E> {
    ghost step: { Self → Plan → List E → ℕ → Turn E };

    ghost fair: { Self → E → Type 0 };

    fn turn(&self, site: Site<E>) -> Turn<E>
        requires { FairSite (fair self.now) site }
        ensures value { (p : Plan) (xs : List E) (i : ℕ) → Sees p xs i site → result ≡ step self.now p xs i }
        ensures kept { Keeps (fair self.now) result };
}
