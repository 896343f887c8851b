use crate::fault::Result;
use crate::floor::{CELLS, floor};
use crate::told::{Thousands, Told};
use ground::listed::Listed;
use replay::replay::replay;
use replay::types::{Answer, Call, Event};
use section::rows::{BracketRow, Majorant, Temperature};
use section::types::Tolerance;
use std::alloc::{AllocError, Global};
use std::{io, iter, mem};
use study::types::Study;

// Tightening goes on in rounds; so many are never needed.
const MOST_ROUNDS: usize = 50;

// A study with the grids that its calls are passed, and where its work is told.
#[derive(Drop)]
pub(crate) struct Desk<'a, R> {
    rt: &'a R,
    pub(crate) heap: Global,
    study: Study<Listed>,
    temperatures: Vec<Temperature>,
    majorant: Vec<Majorant>,
    brackets: Vec<BracketRow>,
}

// The calls with the open count asked before, between and after them.
fn counted(heap: Global, calls: Vec<Call>) -> Result<Vec<Call>, AllocError> {
    let between = calls.into_iter().flat_map(|call| [call, Call::OpenCount]);
    iter::once(Call::OpenCount).chain(between).collect(heap)
}

impl<'a, R: Print> Desk<'a, R> {
    pub(crate) fn new(rt: &'a R, heap: Global) -> Result<Desk<'a, R>> {
        let floor = floor(heap)?;
        let tolerance = Tolerance::new(2_000)?;
        Ok(Desk {
            rt,
            heap,
            study: Study::new(heap, floor, tolerance)?,
            temperatures: vec![in heap; Temperature { value: 0 }; CELLS]?,
            majorant: vec![in heap; Majorant { value: 0 }; CELLS]?,
            brackets: vec![in heap; BracketRow { lo: 0, hi: 0 }; CELLS]?,
        })
    }

    pub(crate) fn say(&self, text: &str) -> io::Result<()> {
        println!(self.rt; "{text}")
    }

    // Takes the grids of a call back.
    fn keep(&mut self, call: Call) {
        match call {
            Call::Relax { temperatures, .. } => self.temperatures = temperatures,
            Call::Raise { majorant, .. } => self.majorant = majorant,
            Call::Certify {
                temperatures,
                majorant,
            } => {
                self.temperatures = temperatures;
                self.majorant = majorant;
            }
            _ => {}
        }
    }

    // Tells what a call did, with the open counts before and after it.
    fn tell(&mut self, event: Event, before: usize, after: usize) -> io::Result<()> {
        let (told, before, after) = (Told(&event), Thousands(before), Thousands(after));
        println!(self.rt; "  {told}: {before} open before, {after} after")?;
        self.keep(event.call);
        Ok(())
    }

    // Replays a list of calls and tells what came of each: what a call asks for at once, and what it
    // did once the open count after it is known. Answers the last open count.
    pub(crate) fn work(&mut self, calls: Vec<Call>) -> Result<usize> {
        let list = counted(self.heap, calls)?;
        let events = replay(self.heap, &mut self.study, &mut self.brackets, list)?;
        let mut open = 0;
        let mut waiting = None;
        for event in events {
            match event.answer {
                Answer::OpenCount(after) => {
                    if let Some(event) = waiting.take() {
                        self.tell(event, open, after)?;
                    }
                    open = after;
                }
                Answer::Bracket(_) | Answer::Finished(_) => {
                    println!(self.rt; "  {}", Told(&event))?;
                }
                _ => waiting = Some(event),
            }
        }
        Ok(open)
    }

    // Makes one call. Answers the open count after it.
    pub(crate) fn make(&mut self, call: Call) -> Result<usize> {
        self.work(vec![in self.heap; call]?)
    }

    pub(crate) fn relax(&mut self, walks: i64) -> Result<usize> {
        let temperatures = mem::try_take(&mut self.temperatures)?;
        self.make(Call::Relax {
            temperatures,
            factor: 190,
            walks,
        })
    }

    pub(crate) fn raise(&mut self) -> Result<usize> {
        let majorant = mem::try_take(&mut self.majorant)?;
        self.make(Call::Raise {
            majorant,
            margin: 10,
            walks: 5_000,
        })
    }

    pub(crate) fn certify(&mut self) -> Result<Call> {
        Ok(Call::Certify {
            temperatures: mem::try_take(&mut self.temperatures)?,
            majorant: mem::try_take(&mut self.majorant)?,
        })
    }

    // Certifies, and tightens until no cell is open.
    pub(crate) fn prove(&mut self) -> Result<()> {
        let certify = self.certify()?;
        let mut open = self.make(certify)?;
        for _ in 0..MOST_ROUNDS {
            if open == 0 {
                break;
            }
            open = self.make(Call::Tighten { walks: 100 })?;
        }
        Ok(())
    }
}
