ghost use Rattle.std.specs.Prelude.{◌≡◌, length};
ghost use Rattle.section.specs.Plan.{size};
ghost use Rattle.refusal.specs.Refusals.{at_first, fault, answer};
ghost use Rattle.refusal.specs.declared.types.Level.TheVariants.{Walk};
ghost use Rattle.steps.specs.Steps.{counts_of};
ghost use Rattle.steps.specs.Tightening.{tighten_run};
ghost use Rattle.study.specs.Events.{walk_answer_of};

use ground::ground::Ground;
use refusal::types::WalkFault;
use section::rows::BracketRow;
use stencil::laid::LaidOut;
use steps::rules::Tighten;
use walk::run::run;

// Tightens up to the first cell whose ends would cross.
pub(crate) fn tighten_laid<G: Ground>(
    laid: &LaidOut<G>,
    grid: &mut [BracketRow],
    most: usize,
) -> Result<(usize, usize), WalkFault>
    requires { length grid.old ≡ size (G.plan laid.now) }
    ensures answer { walk_answer_of result ≡ answer (at_first (tighten_run (G.plan laid.now) most grid.old).stopped (fault Walk 9)) (counts_of (tighten_run (G.plan laid.now) most grid.old)) }
    ensures grid { grid.new ≡ (tighten_run (G.plan laid.now) most grid.old).grid }
{
    run(&Tighten, laid.rows(), grid, most).map_err(|stopped| WalkFault::Crossed(stopped.cell))
}
