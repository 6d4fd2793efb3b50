//! The laws of runs' texts.

ghost use Rattle.std.specs.Prelude.{◌≡◌, List, All};
ghost use Rattle.poet_io.specs.Texts.{HaveOneReading};
ghost use Rattle.run_model.specs.declared.run.Tick.{Tick};
ghost use Rattle.run_text.specs.Text.{stretches_of, run_format};
ghost use Rattle.run_text.specs.Stretches.{ticks_of, AreApart, HasTick};
ghost use Rattle.run_text.specs.Parsing.{run_of_text};

/// Any bytes have one reading, and `run_of_text` is it.
pub fn text_has_one_reading()
    ensures { HaveOneReading run_format run_of_text }
{}

/// The stretches of ticks stand for these ticks, and are as few as can be.
pub fn stretches_expand()
    ensures same { (ticks : List Tick) → ticks_of (stretches_of ticks) ≡ ticks }
    ensures apart { (ticks : List Tick) → AreApart (stretches_of ticks) }
    ensures some { (ticks : List Tick) → All HasTick (stretches_of ticks) }
{}
