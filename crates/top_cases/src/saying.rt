//! Whether the program says what it has to say.
use crate::{Case, shelf_of, sink_of, words_of};
use poet_cli::poet_run;
use poet_io::{MemShelf, MemSink};
use std::alloc::{AllocError, Global};

/// Runs the program, and tells whether its status and its texts are these.
pub fn says(
    alloc: Global,
    words: &Vec<String>,
    mut shelf: MemShelf,
    mut out: MemSink,
    mut err: MemSink,
    said: (u8, &[u8], &[u8]),
) -> bool {
    let status = poet_run(alloc, words, &mut shelf, &mut out, &mut err);
    status == said.0 && out.taken() == said.1 && err.taken() == said.2
}

fn says_of(alloc: Global, case: &Case) -> Result<bool, AllocError> {
    let words = words_of(alloc, case.words)?;
    let (sheet, other) = (case.sheet.as_bytes(), case.other.as_bytes());
    let shelf = shelf_of(alloc, sheet, other, Vec::new(alloc))?;
    let (out, err) = (sink_of(alloc, 4096)?, sink_of(alloc, 4096)?);
    let said = (case.status, case.out.as_bytes(), case.err.as_bytes());
    Ok(says(alloc, &words, shelf, out, err, said))
}

/// The words of the first row to which the program says something else.
pub fn first_unsaid(alloc: Global, cases: &[Case]) -> Result<Option<&'static str>, AllocError> {
    for case in cases {
        if !says_of(alloc, case)? {
            return Ok(Some(case.words));
        }
    }
    Ok(None)
}
