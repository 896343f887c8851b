ghost use Rattle.std.specs.Prelude.{◌≡◌, length, unsigned_abs};
ghost use Rattle.refusal.specs.Refusals.{answer_of, answer, unless_refused};
ghost use Rattle.section.specs.Plan.{Plan};
ghost use Rattle.stencil.specs.Stencils.{Stands};
ghost use Rattle.measure.specs.Measures.{rest, margin};
ghost use Rattle.certificate.specs.AtRows.{Laid};
ghost use Rattle.certificate.specs.Certifying.{certificate_check, written};

use crate::basis::Basis;
use crate::proposal::Proposal;
use refusal::types::Refusal;
use section::rows::{BracketRow, Majorant, Temperature};
use section::types::Shape;
use stencil::types::Stencil;

// Certifies over equations that are laid out. Answers the rest and the margin. For the crates above.
pub fn certify(
    shape: Shape,
    rows: &[Option<Stencil>],
    temperatures: &[Temperature],
    majorant: &[Majorant],
    brackets: &mut [BracketRow],
    basis: Basis,
) -> Result<(u64, u64), Refusal>
    requires temperatures { Laid shape rows.now (length temperatures.now) }
    requires majorant { Laid shape rows.now (length majorant.now) }
    requires brackets { Laid shape rows.now (length brackets.old) }
    ensures answer { (p : Plan) → Stands p rows.now → answer_of result ≡ answer (certificate_check p basis temperatures.now majorant.now brackets.old) (rest p temperatures.now, unsigned_abs (margin p majorant.now)) }
    ensures grid { (p : Plan) → Stands p rows.now → brackets.new ≡ unless_refused (certificate_check p basis temperatures.now majorant.now brackets.old) brackets.old (written p basis temperatures.now majorant.now brackets.old) }
{
    let proposal = Proposal::new(shape, rows, temperatures, majorant)?;
    proposal.meets(basis, brackets)?;
    proposal.write(basis, brackets);
    Ok(proposal.measured())
}
