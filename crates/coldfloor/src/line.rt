use std::alloc::{AllocError, Global};
use std::io;
use std::io::Write;

// A line of a script that asks for something. Its words are what stands between spaces and tabs,
// byte for byte; the first is the command.
#[derive(Drop)]
pub(crate) struct Line<'a> {
    pub(crate) number: u64,
    pub(crate) command: &'a [u8],
    pub(crate) arguments: Vec<&'a [u8]>,
}

impl<'a> Line<'a> {
    // None where the line is blank or a remark.
    pub(crate) fn read(
        heap: Global,
        number: u64,
        text: &'a [u8],
    ) -> Result<Option<Line<'a>>, AllocError> {
        let mut words = text
            .split(|byte| matches!(*byte, b' ' | b'\t'))
            .filter(|word| !word.is_empty());
        match words.next() {
            None | Some([b'#', ..]) => Ok(None),
            Some(command) => Ok(Some(Line {
                number,
                command,
                arguments: words.collect(heap)?,
            })),
        }
    }

    pub(crate) fn echo<W: Write>(&self, out: &mut W) -> io::Result<()> {
        out.write_all(b"> ")?;
        out.write_all(self.command)?;
        for word in &self.arguments {
            out.write_all(b" ")?;
            out.write_all(word)?;
        }
        out.write_all(b"\n")
    }
}
