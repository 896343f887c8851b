// The worked floors: small floors with what a host is told at each, worked out by hand.
#![tactic(auto)]

ghost use Rattle.std.specs.Prelude.{◌≡◌, length};
ghost use Rattle.worked.specs.Cases.{cases, Worked};

// How many cases the table has. In every one of them the calls answer, and leave in the grids, what
// the table says.
pub fn worked_floors() -> usize
    ensures count { result ≡ length cases }
    ensures right { Worked }
{
    20
}
