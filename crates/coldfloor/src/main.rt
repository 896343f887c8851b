// Reads a script from standard input, one command to a line, carries each command out over the
// library, and writes a transcript to standard output.
#![tactic(auto)]

mod arguments;
mod command;
mod fault;
mod floor;
mod grids;
mod grounds;
mod line;
mod parse;
mod session;
mod stage;
mod transcript;
mod work;

use line::Line;
use session::Session;
use std::io;
use std::io::{BufRead, BufReader, BufWriter, Write};
use transcript::answer;

fn main(rt: HostRuntime) -> io::Result<()> {
    let heap = rt.alloc();
    let input = BufReader::new(heap, rt.stdin())?;
    let mut output = BufWriter::new(heap, rt.stdout())?;
    let mut session = Session::new(heap);
    let mut gained = Vec::new(heap);
    for (number, text) in (1..u64::MAX).zip(input.split(heap, b'\n')) {
        let text = text?;
        if let Some(line) = Line::read(heap, number, text.as_slice())? {
            // Written at once, and not at all where memory ends in the line.
            gained.clear();
            answer(&mut session, &line, &mut gained)?;
            output.write_all(&gained)?;
        }
    }
    output.flush()
}
