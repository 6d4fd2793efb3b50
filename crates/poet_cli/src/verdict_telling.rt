//! How a verdict on a certificate is told. Nothing here takes memory.
ghost use Rattle.poet_text.specs.Tellings.{outlets, Told};
ghost use Rattle.poet_cli.specs.CertVerdicts.{verdict_ending, HasCount};

use cert_check::Verdict;
use poet_io::Sink;
use poet_text::{Refusal, Source, finish, tell, write_accepted, write_refused};
use task_sheet::Sheet;

/// Tells a verdict, and answers its status.
pub fn tell_verdict<O: Sink, E: Sink>(
    sheet: &Sheet,
    verdict: Verdict,
    out: &mut O,
    err: &mut E,
) -> u8
    requires { HasCount sheet.now verdict }
    ensures { Told (verdict_ending sheet.now verdict)
        (outlets O.written O.faults E.written E.faults out.old err.old)
        (outlets O.written O.faults E.written E.faults out.new err.new) result }
{
    match verdict {
        Verdict::Accepted(bounds) => finish(write_accepted(out, sheet, bounds.as_slice()), 0, err),
        Verdict::Refused(failed) => finish(write_refused(out, sheet, &failed), 1, err),
        Verdict::Text { line } => tell(
            &Err(Refusal::Text {
                source: Source::Certificate,
                line,
            }),
            out,
            err,
        ),
    }
}
