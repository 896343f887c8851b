ghost use Rattle.std.specs.Prelude.{List};
ghost use Rattle.section.specs.declared.rows.BracketRow.{BracketRow};
ghost use Rattle.replay.specs.Replays.{Made};

use crate::types::{Answer, Call, Event};
use ground::ground::Ground;
use section::rows::{BracketRow, Majorant, Temperature};
use study::types::Study;

fn relaxed<G: Ground>(
    study: &Study<G>,
    mut temperatures: Vec<Temperature>,
    factor: i64,
    walks: i64,
) -> Event
    ensures { (bs : List BracketRow) → Made (G.plan study.now.layer.below) study.now bs (Call.Relax temperatures factor walks) result study.now bs }
{
    let answer = Answer::Relaxed(study.relax(&mut temperatures, factor, walks));
    Event {
        call: Call::Relax {
            temperatures,
            factor,
            walks,
        },
        answer,
    }
}

fn raised<G: Ground>(
    study: &Study<G>,
    mut majorant: Vec<Majorant>,
    margin: i64,
    walks: i64,
) -> Event
    ensures { (bs : List BracketRow) → Made (G.plan study.now.layer.below) study.now bs (Call.Raise majorant margin walks) result study.now bs }
{
    let answer = Answer::Raised(study.raise(&mut majorant, margin, walks));
    Event {
        call: Call::Raise {
            majorant,
            margin,
            walks,
        },
        answer,
    }
}

fn certified<G: Ground>(
    study: &mut Study<G>,
    brackets: &mut [BracketRow],
    temperatures: Vec<Temperature>,
    majorant: Vec<Majorant>,
) -> Event
    ensures { Made (G.plan study.old.layer.below) study.old brackets.old (Call.Certify temperatures majorant) result study.new brackets.new }
{
    let answer = Answer::Certified(study.certify(&temperatures, &majorant, brackets));
    Event {
        call: Call::Certify {
            temperatures,
            majorant,
        },
        answer,
    }
}

// Makes one call, with the method that a host would use.
pub(crate) fn make<G: Ground>(
    study: &mut Study<G>,
    brackets: &mut [BracketRow],
    call: Call,
) -> Event
    ensures { Made (G.plan study.old.layer.below) study.old brackets.old call result study.new brackets.new }
{
    match call {
        Call::Relax {
            temperatures,
            factor,
            walks,
        } => relaxed(study, temperatures, factor, walks),
        Call::Raise {
            majorant,
            margin,
            walks,
        } => raised(study, majorant, margin, walks),
        Call::Certify {
            temperatures,
            majorant,
        } => certified(study, brackets, temperatures, majorant),
        Call::Tighten { walks } => Event {
            call: Call::Tighten { walks },
            answer: Answer::Tightened(study.tighten(brackets, walks)),
        },
        Call::Pin { cell, temperature } => Event {
            call: Call::Pin { cell, temperature },
            answer: Answer::Pinned(study.pin(cell, temperature)),
        },
        Call::Release { cell } => Event {
            call: Call::Release { cell },
            answer: Answer::Released(study.release(cell)),
        },
        Call::Bracket { cell } => Event {
            call: Call::Bracket { cell },
            answer: Answer::Bracket(study.bracket(brackets, cell)),
        },
        Call::OpenCount => Event {
            call: Call::OpenCount,
            answer: Answer::OpenCount(study.open_count()),
        },
        Call::Finished => Event {
            call: Call::Finished,
            answer: Answer::Finished(study.finished()),
        },
    }
}
