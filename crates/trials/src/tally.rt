use std::io;

// What was done and found on one kind of ground.
#[derive(Default, Drop)]
pub(crate) struct Tally {
    pub(crate) studies: usize,
    pub(crate) calls: usize,
    pub(crate) refused: usize,
    pub(crate) certificates: usize,
    pub(crate) compared: usize,
    pub(crate) passed_over: usize,
    pub(crate) outside: usize,
    pub(crate) widened: usize,
    pub(crate) wrong: usize,
}

pub(crate) fn add_one(count: &mut usize) {
    *count = count.saturating_add(1);
}

impl Tally {
    // A line at a time.
    pub(crate) fn print(&self, rt: &impl Print, kind: &str) -> io::Result<()> {
        println!(rt;
            "{kind}: {} studies, {} calls, {} refused, {} certificates accepted",
            self.studies, self.calls, self.refused, self.certificates
        )?;
        println!(rt;
            "  {} brackets compared, {} passed over",
            self.compared, self.passed_over
        )?;
        println!(rt;
            "  outside: {}, widened: {}, wrong counts: {}",
            self.outside, self.widened, self.wrong
        )
    }
}
