ghost use Rattle.std.specs.Prelude.{◌≡◌, ◌<◌, ◌&&◌, length, unsigned_abs, MatchResult};
ghost use Rattle.refusal.specs.Refusals.{check_of, clear, refuse, fault_of};
ghost use Rattle.section.specs.Plan.{Plan, Free, is_free_at};
ghost use Rattle.section.specs.Reading.{brackets as brackets_of};
ghost use Rattle.stencil.specs.Stencils.{Stands};
ghost use Rattle.measure.specs.Measures.{rest, margin, certified};
ghost use Rattle.certificate.specs.AtRows.{Laid};
ghost use Rattle.certificate.specs.Certifying.{common, crossed, meeting_check, proposal_check, written};

use crate::basis::Basis;
use crate::meet::{crosses, settled, shared};
use crate::propose::{has_row, majorant_fair, margins_enough, spreads_near, temperatures_fair};
use measure::measure::{Measure, measured};
use refusal::types::Refusal;
use scan::first_failing;
use section::rows::{BracketRow, Majorant, Temperature};
use section::types::{Bracket, Shape};
use std::marker::Model;
use stencil::types::Stencil;
use steps::height::Height;

// Grids that passed every check of what is proposed for a plan, with what they measure: a caller
// sees the plan's rows and the grids.
#[derive(Drop)]
pub(crate) struct Proposal<'a> {
    shape: Shape,
    rows: &'a [Option<Stencil>],
    temperatures: &'a [Temperature],
    majorant: &'a [Majorant],
    measure: Measure,
}

impl<'a> Model for Proposal<'a> {
    ghost use Rattle.std.specs.Prelude.{List, Option};
    ghost use Rattle.stencil.specs.declared.types.Stencil.{Stencil as StencilOf};
    ghost use Rattle.certificate.specs.Proposals.{Proposed, CertifiableOver};

    ghost Value = { Proposed (List (Option StencilOf)) };

    ghost view = { λ s. record { base = s.rows.now; us = s.temperatures.now; ws = s.majorant.now } };

    ghost invariant = { λ s. CertifiableOver s.shape s.rows.now s.temperatures.now s.majorant.now s.measure };
}

impl<'a> Proposal<'a> {
    // Each check goes over the whole grid before the next.
    pub(crate) fn new(
        shape: Shape,
        rows: &'a [Option<Stencil>],
        temperatures: &'a [Temperature],
        majorant: &'a [Majorant],
    ) -> Result<Proposal<'a>, Refusal>
        requires temperatures { Laid shape rows.now (length temperatures.now) }
        requires majorant { Laid shape rows.now (length majorant.now) }
        ensures { MatchResult result (λ x. ((p : Plan) → Stands p rows.now → proposal_check p temperatures.now majorant.now ≡ clear) × (x.base ≡ rows.now) × (x.us ≡ temperatures.now) × (x.ws ≡ majorant.now)) (λ e. ((p : Plan) → Stands p rows.now → proposal_check p temperatures.now majorant.now ≡ refuse (fault_of e))) }
    {
        temperatures_fair(shape, rows, temperatures)?;
        majorant_fair(shape, rows, majorant)?;
        margins_enough(shape, rows, majorant)?;
        let measure = measured(rows, temperatures, majorant);
        spreads_near(shape, rows, temperatures, majorant, measure)?;
        Ok(Proposal {
            shape,
            rows,
            temperatures,
            majorant,
            measure,
        })
    }

    // The rest and the margin.
    pub(crate) fn measured(&self) -> (u64, u64)
        ensures { (p : Plan) → Stands p self.now.base → result ≡ (rest p self.now.us, unsigned_abs (margin p self.now.ws)) }
    {
        (self.measure.rest, self.measure.margin)
    }

    // The certified bracket of a free cell.
    fn bracket_at(&self, cell: usize) -> BracketRow
        requires { (p : Plan) → Stands p self.now.base → Free p cell }
        ensures { (p : Plan) → Stands p self.now.base → result ≡ certified p self.now.us self.now.ws cell }
    {
        self.measure.certified(
            self.temperatures[cell].value,
            Height::of(self.majorant[cell]),
        )
    }

    // The first free cell whose certified bracket has nothing in common with a proved one is refused.
    pub(crate) fn meets(&self, basis: Basis, brackets: &[BracketRow]) -> Result<(), Refusal>
        requires { length brackets.now ≡ length self.now.base }
        ensures { (p : Plan) → Stands p self.now.base → check_of result ≡ meeting_check p basis self.now.us self.now.ws brackets.now }
    {
        let is_apart = |cell: usize|
            requires row { cell < length self.now.base }
            requires bracket { cell < length brackets.now }
            ensures { (p : Plan) → Stands p self.entry.now.base → result ≡ (is_free_at p cell && crossed (common (certified p self.entry.now.us self.entry.now.ws cell) (brackets_of brackets.entry.now cell))) }
        {
            has_row(self.rows, cell)
                && crosses(shared(self.bracket_at(cell), Bracket::from(brackets[cell])))
        };
        match basis {
            Basis::Alone => Ok(()),
            Basis::Joined => match first_failing(self.shape, is_apart) {
                Some(cell) => Err(Refusal::Crossed(cell)),
                None => Ok(()),
            },
        }
    }

    // Gives every free cell the bracket that the certificate leaves it.
    pub(crate) fn write(&self, basis: Basis, grid: &mut [BracketRow])
        requires { length grid.old ≡ length self.now.base }
        ensures { (p : Plan) → Stands p self.now.base → grid.new ≡ written p basis self.now.us self.now.ws grid.old }
    {
        for (cell, row) in grid.iter_mut().enumerate() {
            if has_row(self.rows, cell) {
                *row = settled(basis, self.bracket_at(cell), *row);
            }
        }
    }
}
