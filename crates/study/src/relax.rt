ghost use Rattle.std.specs.Prelude.{◌≡◌, length};
ghost use Rattle.section.specs.Plan.{size};
ghost use Rattle.refusal.specs.Refusals.{answer_of, answer, unless_refused};
ghost use Rattle.steps.specs.Steps.{relax_run, counts_of};
ghost use Rattle.certificate.specs.Certifying.{temperature_check};

use certificate::propose::temperatures_fair;
use ground::ground::Ground;
use refusal::types::Refusal;
use section::rows::Temperature;
use stencil::laid::LaidOut;
use steps::rules::Relax;
use steps::told::counts_of;
use walk::run::run;

// Relaxes, unless a free cell's temperature is outside its limits.
pub(crate) fn relax_laid<G: Ground>(
    laid: &LaidOut<G>,
    grid: &mut [Temperature],
    factor: Relax,
    most: usize,
) -> Result<(usize, usize), Refusal>
    requires { length grid.old ≡ size (G.plan laid.now) }
    ensures answer { answer_of result ≡ answer (temperature_check (G.plan laid.now) grid.old) (counts_of (relax_run (G.plan laid.now) factor.factor most grid.old)) }
    ensures grid { grid.new ≡ unless_refused (temperature_check (G.plan laid.now) grid.old) grid.old (relax_run (G.plan laid.now) factor.factor most grid.old).grid }
{
    let rows = laid.rows();
    temperatures_fair(laid.shape(), rows, grid)?;
    Ok(counts_of(run(&factor, rows, grid, most)))
}
