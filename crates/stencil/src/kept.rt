ghost use Rattle.std.specs.Prelude.{◌≡◌, ◌≤◌, vec_capacity, slice_index_or};
ghost use Rattle.stencil.specs.Keeping.{kept_plan};
ghost use Rattle.stencil.specs.Laying.{RecordsOf};
ghost use Rattle.section.specs.declared.types.Record.TheVariants.{Void};

use ground::ground::Ground;
use section::types::{Record, Shape};

// The records of a ground, each read once: a cell is asked for by its four neighbours too, and
// layers take their time to answer.
#[derive(Clone, Copy)]
pub(crate) struct Kept<'a> {
    pub(crate) shape: Shape,
    pub(crate) records: &'a [Record],
}

fn entry(records: &[Record], index: usize) -> Record
    ensures { result ≡ slice_index_or records.now index Void }
{
    if index < records.len() {
        records[index]
    } else {
        Record::Void
    }
}

impl Ground for Kept<'_> {
    ghost plan = { λ s. kept_plan s.shape s.records.now };

    fn shape(&self) -> Shape {
        self.shape
    }

    fn record(&self, index: usize) -> Record {
        if index < self.shape.cells() {
            entry(self.records, index)
        } else {
            Record::Void
        }
    }
}

// Reads the records of a ground, in room that is there already.
pub(crate) fn keep<G: Ground>(ground: &G, records: &mut Vec<Record>)
    requires { 4096 ≤ vec_capacity records.old }
    ensures kept { RecordsOf (G.plan ground.now) records.new.items }
    ensures capacity { vec_capacity records.new ≡ vec_capacity records.old }
{
    records.clear();
    for index in 0..ground.shape().cells() {
        records.push_reserved(ground.record(index));
    }
}
