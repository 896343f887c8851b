// The first cell of a section that fails a check, row by row.
#![tactic(auto)]

ghost use Rattle.std.specs.Prelude.{◌≡◌, ℕ, ◌*◌, ◌<◌, Bool};
ghost use Rattle.scan.specs.First.{first, Tests};

use section::types::Shape;

// The first cell at which a check says that it fails. For the crates above.
pub fn first_failing<F: Fn(usize) -> bool>(shape: Shape, fails: F) -> Option<usize>
    requires { (k : ℕ) → k < shape.wide * shape.high → F.pre fails k }
    ensures { (test : ℕ → Bool) → Tests (F.post fails) test (shape.wide * shape.high) → result ≡ first test (shape.wide * shape.high) }
{
    'scan: {
        for row in 0..shape.high {
            for column in 0..shape.wide {
                if fails(row * shape.wide + column) {
                    break 'scan Some(row * shape.wide + column);
                }
            }
        }
        None
    }
}
