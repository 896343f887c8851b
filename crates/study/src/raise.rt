ghost use Rattle.std.specs.Prelude.{◌≡◌, length, unsigned_abs};
ghost use Rattle.section.specs.Plan.{size};
ghost use Rattle.steps.specs.Steps.{raise_run, raised_of};

use ground::ground::Ground;
use section::rows::Majorant;
use stencil::laid::LaidOut;
use steps::report::Raised;
use steps::rules::Raise;
use steps::start::clear;
use steps::told::raised_by;
use walk::run::run;

// Raises from 0.
pub(crate) fn raise_laid<G: Ground>(
    laid: &LaidOut<G>,
    grid: &mut [Majorant],
    margin: Raise,
    most: usize,
) -> Raised
    requires { length grid.old ≡ size (G.plan laid.now) }
    ensures answer { result ≡ raised_of (raise_run (G.plan laid.now) (unsigned_abs margin.margin) most grid.old) }
    ensures grid { grid.new ≡ (raise_run (G.plan laid.now) (unsigned_abs margin.margin) most grid.old).grid }
{
    clear(laid, grid);
    raised_by(run(&margin, laid.rows(), grid, most))
}
