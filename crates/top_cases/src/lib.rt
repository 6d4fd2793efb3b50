//! What the tests of the top call share: rows of words and what the program says to them, files in
//! memory, and the sheets and certificates of the worked examples.
#![tactic(auto)]

pub mod files;
mod saying;

use poet_io::{MemShelf, MemSink};
pub use saying::{first_unsaid, says};
use std::alloc::{AllocError, Global};

/// Words over the files `s` and `c`, and what the program says to them.
pub struct Case {
    /// The words, with a space between each two.
    pub words: &'static str,
    /// The file `s`.
    pub sheet: &'static str,
    /// The file `c`.
    pub other: &'static str,
    pub status: u8,
    pub out: &'static str,
    pub err: &'static str,
}

/// The words of a line, with a space between each two.
pub fn words_of(alloc: Global, line: &str) -> Result<Vec<String>, AllocError> {
    let mut words = Vec::new(alloc);
    for word in line.split(' ') {
        words.push(String::from_str(alloc, word)?)?;
    }
    Ok(words)
}

/// The files `s` and `c`.
pub fn files_of(
    alloc: Global,
    sheet: &[u8],
    other: &[u8],
) -> Result<Vec<(String, Vec<u8>)>, AllocError> {
    let mut files = Vec::new(alloc);
    files.push((
        String::from_str(alloc, "s")?,
        Vec::from_slice(alloc, sheet)?,
    ))?;
    files.push((
        String::from_str(alloc, "c")?,
        Vec::from_slice(alloc, other)?,
    ))?;
    Ok(files)
}

/// A shelf with the files `s` and `c`, whose calls with the numbers in `fails` are faults.
pub fn shelf_of(
    alloc: Global,
    sheet: &[u8],
    other: &[u8],
    fails: Vec<u64>,
) -> Result<MemShelf, AllocError> {
    Ok(MemShelf::new(files_of(alloc, sheet, other)?, fails))
}

/// A sink of so many bytes, with no fault.
pub fn sink_of(alloc: Global, room: usize) -> Result<MemSink, AllocError> {
    MemSink::new(alloc, Vec::new(alloc), 4096, room)
}
