//! The law of traces' texts.
ghost use Rattle.poet_io.specs.Texts.{HaveOneReading};
ghost use Rattle.curve_infer.specs.Text.{trace_format};
ghost use Rattle.curve_infer.specs.Parsing.{trace_of_text};

/// Any bytes have one reading, and `trace_of_text` is it.
pub fn text_has_one_reading()
    ensures { HaveOneReading trace_format trace_of_text }
{}
