//! Why nothing was judged.
ghost use Rattle.std.specs.Prelude.{◌≡◌};
ghost use Rattle.poet_text.specs.Refusals.{refusal_status, source_word, limit_of};

use lists::Text;
use task_sheet::SheetRefusal;

/// Which file.
#[derive(Clone, Copy)]
pub enum Source {
    Sheet,
    Certificate,
    Run,
    Trace,
}

impl Source {
    /// Its word in the lines of refusals.
    pub fn word(self) -> &'static str
        ensures { result.now ≡ source_word self }
    {
        match self {
            Source::Sheet => "sheet",
            Source::Certificate => "certificate",
            Source::Run => "run",
            Source::Trace => "trace",
        }
    }

    /// The longest file of the kind, in bytes.
    pub fn limit(self) -> usize
        ensures { result ≡ limit_of self }
    {
        match self {
            Source::Sheet | Source::Trace => 1_048_576,
            Source::Certificate | Source::Run => 67_108_864,
        }
    }
}

/// Why a command was refused. Each has a status and a line of its own.
#[derive(Drop)]
pub enum Refusal {
    /// The words are not in the grammar.
    Usage,
    /// A file could not be read.
    Read(Source),
    Sheet(SheetRefusal),
    /// A text is not of its format, from this line on.
    Text { source: Source, line: u64 },
    /// A file is longer than its limit.
    Limit(Source),
    /// There are more than 1,000,000 points with those of the task of this name.
    Points(Text),
    /// The run would have more than 20,000 jobs.
    Jobs,
    /// The jobs of the run would have more than 1,000,000 segments.
    Segments,
    /// The text of a certificate with its terms would be longer than its file may be.
    LongUpgrade,
    Memory,
}

impl Refusal {
    /// Its status.
    pub fn status(&self) -> u8
        ensures { result ≡ refusal_status self.now }
    {
        match self {
            Refusal::Usage => 2,
            Refusal::Read(_) => 3,
            Refusal::Sheet(_) => 5,
            Refusal::Text { .. } => 6,
            Refusal::Limit(_)
            | Refusal::Points(_)
            | Refusal::Jobs
            | Refusal::Segments
            | Refusal::LongUpgrade => 7,
            Refusal::Memory => 8,
        }
    }
}
