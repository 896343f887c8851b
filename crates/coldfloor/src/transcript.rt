use crate::fault::Fault;
use crate::line::Line;
use crate::parse::command_of;
use crate::session::Session;
use std::io;
use std::io::Write;

// Writes what the transcript gains by a line of the script.
pub(crate) fn answer<W: Write>(session: &mut Session, line: &Line, out: &mut W) -> io::Result<()> {
    line.echo(out)?;
    let number = line.number;
    let command = match command_of(line) {
        Ok(command) => command,
        Err(unread) => {
            write!(out, "line {number}: ")?;
            unread.write(out)?;
            return out.write_all(b"\n");
        }
    };
    match session.carry_out(command) {
        Ok(text) => writeln!(out, "{text}"),
        Err(Fault::Refused(refusal)) => writeln!(out, "{refusal}"),
        Err(Fault::Untimely(untimely)) => writeln!(out, "line {number}: {untimely}"),
        Err(Fault::Memory(error)) => Err(error.into()),
    }
}
