// What is proved of a study, and the pins that undo it.
ghost use Rattle.std.specs.Prelude.{◌≡◌, length};
ghost use Rattle.section.specs.Plan.{free_count, size};
ghost use Rattle.refusal.specs.Refusals.{answer_of, answer, at_first, unless_refused, fault, Checked};
ghost use Rattle.refusal.specs.declared.types.Level.TheVariants.{Walk};
ghost use Rattle.steps.specs.Steps.{counts_of};
ghost use Rattle.steps.specs.Tightening.{tighten_run};
ghost use Rattle.certificate.specs.Certifying.{certificate_check, written};
ghost use Rattle.certificate.specs.Counting.{open_count};
ghost use Rattle.section.specs.Reading.{plain, brackets as brackets_of};
ghost use Rattle.study.specs.Calls.{standing, length_check, basis_of, certificate_of, certify_answer, certify_grid, certify_standing, tighten_answer, tighten_grid, tighten_standing, ask_check, pin_leaves, release_leaves, is_finished};
ghost use Rattle.study.specs.Events.{walk_answer_of};
ghost use Rattle.study.specs.Pins.{pinning_check, releasing_check};
ghost use Rattle.study.specs.Studies.{equations_of, standing_of, pinning_of, Repinned, Becomes};

use crate::event::{Event, meets};
use crate::tighten::tighten_laid;
use crate::types::{Certificate, State, Study};
use certificate::certify::certify;
use certificate::count::count_open;
use ground::ground::Ground;
use refusal::types::{Refusal, WalkFault};
use section::limits::within;
use section::rows::{BracketRow, Majorant, Temperature};
use section::types::Bracket;

impl<G: Ground> Study<G> {
    // A grid must have an entry for each cell.
    pub(crate) fn sized(&self, length: usize) -> Result<(), Refusal>
        ensures { Checked result (length_check (equations_of G.plan self.now) length) (λ _. length ≡ size (equations_of G.plan self.now)) }
    {
        if length != self.shape().cells() {
            return Err(Refusal::GridLength(length));
        }
        Ok(())
    }

    // Certifies grids of the right length, and counts the open cells anew.
    fn accept(
        &mut self,
        temperatures: &[Temperature],
        majorant: &[Majorant],
        brackets: &mut [BracketRow],
        state: State,
    ) -> Result<Certificate, Refusal>
        requires temperatures { length temperatures.now ≡ size (equations_of G.plan self.old) }
        requires majorant { length majorant.now ≡ size (equations_of G.plan self.old) }
        requires brackets { length brackets.old ≡ size (equations_of G.plan self.old) }
        ensures answer { answer_of result ≡ answer (certificate_check (equations_of G.plan self.old) (basis_of self.old.state) temperatures.now majorant.now brackets.old) (certificate_of (equations_of G.plan self.old) self.old.tolerance.width (basis_of self.old.state) temperatures.now majorant.now brackets.old) }
        ensures grid { brackets.new ≡ unless_refused (certificate_check (equations_of G.plan self.old) (basis_of self.old.state) temperatures.now majorant.now brackets.old) brackets.old (written (equations_of G.plan self.old) (basis_of self.old.state) temperatures.now majorant.now brackets.old) }
        ensures study { Becomes self.old self.new (unless_refused (certificate_check (equations_of G.plan self.old) (basis_of self.old.state) temperatures.now majorant.now brackets.old) (standing_of self.old) (standing state (open_count (equations_of G.plan self.old) self.old.tolerance.width (written (equations_of G.plan self.old) (basis_of self.old.state) temperatures.now majorant.now brackets.old)))) }
    {
        let (rest, margin) = certify(
            self.layer.shape(),
            self.layer.rows(),
            temperatures,
            majorant,
            brackets,
            self.state.basis(),
        )?;
        self.state = state;
        self.open = count_open(self.layer.rows(), brackets, self.tolerance);
        Ok(Certificate {
            rest,
            margin,
            open: self.open,
        })
    }

    // Certifies brackets from proposed temperatures and a majorant; where brackets are proved already,
    // what both have in common.
    pub fn certify(
        &mut self,
        temperatures: &[Temperature],
        majorant: &[Majorant],
        brackets: &mut [BracketRow],
    ) -> Result<Certificate, Refusal>
        ensures answer { answer_of result ≡ certify_answer (equations_of G.plan self.old) self.old.tolerance.width self.old.state temperatures.now majorant.now brackets.old }
        ensures grid { brackets.new ≡ certify_grid (equations_of G.plan self.old) self.old.state temperatures.now majorant.now brackets.old }
        ensures study { Becomes self.old self.new (certify_standing (equations_of G.plan self.old) self.old.tolerance.width (standing_of self.old) temperatures.now majorant.now brackets.old) }
    {
        self.sized(temperatures.len())?;
        self.sized(majorant.len())?;
        self.sized(brackets.len())?;
        let state = meets(self.state, Event::Certificate)?;
        self.accept(temperatures, majorant, brackets, state)
    }

    // Tightens, stopped by a crossing or not, and counts the open cells anew.
    fn narrow(
        &mut self,
        brackets: &mut [BracketRow],
        most: usize,
    ) -> Result<(usize, usize), WalkFault>
        requires { length brackets.old ≡ size (equations_of G.plan self.old) }
        ensures answer { walk_answer_of result ≡ answer (at_first (tighten_run (equations_of G.plan self.old) most brackets.old).stopped (fault Walk 9)) (counts_of (tighten_run (equations_of G.plan self.old) most brackets.old)) }
        ensures grid { brackets.new ≡ (tighten_run (equations_of G.plan self.old) most brackets.old).grid }
        ensures study { Becomes self.old self.new (standing self.old.state (open_count (equations_of G.plan self.old) self.old.tolerance.width (tighten_run (equations_of G.plan self.old) most brackets.old).grid)) }
    {
        let ran = tighten_laid(&self.layer, brackets, most);
        self.open = count_open(self.layer.rows(), brackets, self.tolerance);
        ran
    }

    // Tightens proved brackets. Answers the walks begun and the cells changed in the last; where the
    // ends of a bracket would cross, what was written before stays.
    pub fn tighten(
        &mut self,
        brackets: &mut [BracketRow],
        walks: i64,
    ) -> Result<(usize, usize), Refusal>
        ensures answer { answer_of result ≡ tighten_answer (equations_of G.plan self.old) self.old.state brackets.old walks }
        ensures grid { brackets.new ≡ tighten_grid (equations_of G.plan self.old) self.old.state brackets.old walks }
        ensures study { Becomes self.old self.new (tighten_standing (equations_of G.plan self.old) self.old.tolerance.width (standing_of self.old) brackets.old walks) }
    {
        self.sized(brackets.len())?;
        meets(self.state, Event::Tightening)?;
        within(1, walks, 1, 1_000_000)?;
        let counts = self.narrow(brackets, walks as usize)?;
        Ok(counts)
    }

    // The bracket of a free cell, while brackets are proved.
    pub fn bracket(&self, brackets: &[BracketRow], cell: usize) -> Result<Bracket, Refusal>
        ensures { Checked result (ask_check (equations_of G.plan self.now) self.now.state (length brackets.now) cell) (λ b. plain b ≡ brackets_of brackets.now cell) }
    {
        self.sized(brackets.len())?;
        match self.state {
            State::Unproved => return Err(Refusal::NotProved),
            State::Proved => {}
        }
        if cell >= brackets.len() {
            return Err(Refusal::NoSuchCell(cell));
        }
        if !self.is_free(cell) {
            return Err(Refusal::NotFree(cell));
        }
        Ok(Bracket::from(brackets[cell]))
    }

    // Holds a free cell at a temperature. What was proved is proved no more.
    pub fn pin(&mut self, cell: usize, temperature: i64) -> Result<(), Refusal>
        ensures answer { answer_of result ≡ answer (pinning_check G.plan self.old.layer cell temperature) tt }
        ensures study { Repinned self.old self.new (pin_leaves (G.plan self.old.layer.below) (pinning_of self.old) cell temperature) }
    {
        let state = meets(self.state, Event::Pin)?;
        self.layer
            .update_at(cell, |layer| layer.pin(cell, temperature))?;
        self.begin(state);
        Ok(())
    }

    // Frees a pinned cell again. What was proved is proved no more.
    pub fn release(&mut self, cell: usize) -> Result<(), Refusal>
        ensures answer { answer_of result ≡ answer (releasing_check G.plan self.old.layer cell) tt }
        ensures study { Repinned self.old self.new (release_leaves (G.plan self.old.layer.below) (pinning_of self.old) cell) }
    {
        let state = meets(self.state, Event::Release)?;
        self.layer.update_at(cell, |layer| layer.release(cell))?;
        self.begin(state);
        Ok(())
    }

    // Every free cell is open where nothing is proved.
    fn begin(&mut self, state: State)
        ensures { Becomes self.old self.new (standing state (free_count (equations_of G.plan self.old))) }
    {
        self.state = state;
        self.open = self.layer.free_cells();
    }

    // Whether brackets are proved and no cell is open.
    pub fn finished(&self) -> bool
        ensures { result ≡ is_finished (standing_of self.now) }
    {
        match self.state {
            State::Unproved => false,
            State::Proved => self.open == 0,
        }
    }
}
