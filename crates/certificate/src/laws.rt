//! The law of certificates' texts.

ghost use Rattle.poet_io.specs.Texts.{HaveOneReading};
ghost use Rattle.certificate.specs.Text.{cert_format};
ghost use Rattle.certificate.specs.Parsing.{cert_of_text};

/// Any bytes have one reading, and `cert_of_text` is it.
pub fn text_has_one_reading()
    ensures { HaveOneReading cert_format cert_of_text }
{}
